//! Frames of the Debug Adapter Protocol's base protocol. Bytes that come in any pieces are taken
//! apart into bodies, and a body is put into a frame.
#![tactic(auto)]

mod buffer;
mod error;
mod field;
mod header;
pub mod laws;
mod split;
mod start;
mod state;
mod unframer;
mod writing;

pub use error::FrameError;
pub use unframer::Unframer;
pub use writing::frame;

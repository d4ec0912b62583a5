//! What an editor may know of the machine: the facts that the messages of the Debug Adapter Protocol tell, kept by the requests that
//! were told and the bytes that came.
#![tactic(auto)]

mod asked;
mod breakpoints;
mod error;
mod frames;
mod known;
pub mod laws;
mod memory;
mod message;
mod mirror;
mod news;
mod registers;
mod response;
mod sources;

pub use error::MirrorError;
pub use facts::{BreakInfo, FrameInfo, Name, RunState};
pub use mirror::Mirror;

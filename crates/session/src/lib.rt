//! A debug session: what an editor sends and what it is answered, one event after another.
#![tactic(auto)]

mod config;
mod draft;
mod event;
mod limits;
mod link;
mod prepared;
mod session;
mod slices;
mod state;

pub use byte_strings::Bytes;
pub use config::{Config, ConfigError};
pub use event::{Applied, Event, EventError, LinkFault, SliceEnd, Sliced, Turned};
pub use facts::{BreakInfo, FrameInfo, Name, RunState};
pub use limits::Limits;
pub use queues::{Buffer, feed, framed};
pub use session::Session;
pub use snapshots::Snapshot;
pub use state::MOST_PIECE;

/// The greatest length of a body, in bytes.
pub const BODY_LIMIT: u32 = 1_048_576;

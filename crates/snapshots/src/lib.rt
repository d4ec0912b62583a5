//! A copy of all that an editor could be told of a program that is debugged.
#![tactic(auto)]

mod captured;
mod snapshot;

pub use facts::{BreakInfo, FrameInfo, Name, RunState};
pub use snapshot::Snapshot;

//! A list of events played back: what an editor knows by the bytes that it got, beside what could be seen.
#![tactic(auto)]

mod bodies;
mod last;
mod track;
mod watching;

pub use watching::{WatchError, Watched, queued, watch};

//! What an editor writes: the requests of the Debug Adapter Protocol, as compact JSON.
//!
//! `protocol::Command` has the requests and their arguments. `arguments` writes these, and has a
//! function for each kind of them; `entry` writes what is in their lists.
#![tactic(auto)]

mod arguments;
mod entry;
mod names;
mod ranges;
mod writing;

pub use ranges::is_in_range;
pub use writing::write_request;

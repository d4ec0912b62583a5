//! Scripts that are played, and what an editor then knows, beside what could be seen; or what was said.
#![tactic(auto)]

mod asked;
mod configs;
mod events;
mod fed;
mod knowing;
mod lines;
mod replaying;
mod saying;
mod shown;
mod stream;
mod watching;
mod words;

pub use asked::{Asked, ReplayFault};
pub use replaying::replay;
pub use scripts::ScriptFault;
pub use watching::{WatchFault, watch_script, watch_steps};

//! Scripts: what happens to a session, line by line, and what is watched of it then; how one is written while it happens, with the texts
//! that the session was given.
#![tactic(auto)]

mod copies;
mod due;
mod fault;
pub mod laws;
mod line;
mod number;
mod path;
mod progress;
mod recorded;
mod recorder;
mod script;
mod step;
mod telling;
mod watch;
mod writing;

pub use byte_strings::Bytes;
pub use copies::Copies;
pub use fault::ScriptFault;
pub use path::Path;
pub use progress::Progress;
pub use recorded::{Recorded, read_recorded};
pub use recorder::ScriptRecorder;
pub use script::{Script, read_script};
pub use step::Step;
pub use watch::{Cut, Watch};
pub use writing::{StepRef, step_line, watch_line};

//! A hart in its memory, which executes words that were decoded once, the calls of its program, and its past
//! (RISC-V Unprivileged ISA 20191213).
#![tactic(auto)]

mod calls;
mod course;
mod entry;
pub mod laws;
mod machine;
mod moves;
mod places;
mod undo_log;

pub use calls::Calls;
pub use course::Course;

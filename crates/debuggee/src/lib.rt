//! The program that is debugged: its machine, whether that runs and why it stopped, and what a debugger has still to tell of it.
#![tactic(auto)]

pub mod laws;
mod program;
mod run;

pub use program::{Advanced, Program};
pub use run::{Mark, Run, Why};

//! What a debugger keeps of a running RISC-V program while it steps (RISC-V Unprivileged ISA 20191213).
#![tactic(auto)]

mod backwards;
mod burst;
mod goal;
pub mod laws;
mod lending;
mod runner;
mod running;
mod tick;

pub use goal::{Goal, Granularity};
pub use runner::Runner;
pub use tick::{Outcome, Ran, Reason, RunEnd, Tick};

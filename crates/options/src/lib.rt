//! The command line of `rvdap`: what the words after the program's name ask for, by `clap`'s matches of them.
#![tactic(auto)]

mod asked;
mod command;
mod fault;
mod given;
mod limit;
mod memory;
mod reading;
mod rules;
mod usage;

pub use asked::{Mode, Options, PlayOptions, RunOptions, Text, Texts};
pub use memory::DEFAULT_MEMORY;
pub use reading::{options, try_options};
pub use usage::Usage;

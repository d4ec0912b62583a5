//! What the players share. A player does to a layer what it reads and prints what each call answered: a
//! command is a line of arguments on standard input, and its answer a line on standard output. It expects
//! nothing; the tables that are played do.
#![tactic(auto)]

mod answers;
mod arguments;
mod fault;
mod line;
mod line_tables;
mod playing;

pub use answers::{found, none, once, pair};
pub use arguments::{bytes_of, called, hexadecimal, parsed, shown};
pub use fault::Fault;
pub use line::Line;
pub use line_tables::{ask_lines, rise};
pub use playing::{Player, play};

//! A debugger in the terminal, without the terminal: lines that somebody types, what is done for them in a session, and what is shown. What is
//! shown of the machine is what a mirror of the session holds then, and so was true of it when the last message was queued.
#![tactic(auto)]

mod asking;
mod beginning;
mod changers;
mod changing;
mod console;
mod errand;
mod expressions;
mod faults;
mod help;
mod link;
mod memory;
mod moving;
mod obeying;
mod page;
mod piece;
mod stop;
mod stop_lists;
mod stops;
mod values;
mod views;
mod watching;

pub use console::{Console, Waits};
pub use page::Screen;
pub use piece::{Form, Listed, Piece, Tone};

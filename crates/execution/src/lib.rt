//! The execution of a program without a debugger: it runs to its end, and what it prints is written.
#![tactic(auto)]

mod end;
mod executing;
mod fault_words;
mod faults;
pub mod laws;
mod loading;
mod registers;
mod slices;
mod telling;
mod texts;
mod trace;
mod uses;

pub use end::{ExecutionEnd, ExecutionFault};
pub use executing::{Limits, execute};
pub use fault_words::fault_text;
pub use faults::{Fault, fault_of};
pub use loading::{Loaded, load};
pub use registers::registers_text;
pub use telling::{Stop, beginning_text, odd_beginning, stop_text};
pub use texts::{joined, place_in};
pub use trace::trace_text;
pub use uses::{Use, Verb};

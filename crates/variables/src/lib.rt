//! What an editor sees of a machine that stands still: registers and words of the stack, and the numbers by which it refers to them.
#![tactic(auto)]

mod error;
mod handles;
pub mod laws;
mod register;
mod stack;
mod target;
mod value;

pub use error::{FindError, IssueError};
pub use handles::Handles;
pub use register::{registers, set_register};
pub use stack::stack_words;
pub use target::Target;

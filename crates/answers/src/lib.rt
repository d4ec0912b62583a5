//! What requests about the machine answer: computed from what they are lent, without changing it.
//!
//! A request has a module of its own name. `breaks` has the answers of those that set breakpoints, `looking` of those that look into a
//! stopped machine, and `set_variable` and `write_memory` say what is to be changed of it.
#![tactic(auto)]

mod breaks;
mod conditions;
pub mod disassemble;
mod draft;
mod editor_lines;
mod evaluate;
pub mod laws;
mod looking;
mod parts;
mod problem;
pub mod read_memory;
mod scopes;
mod set_breakpoints;
mod set_function_breakpoints;
mod set_instruction_breakpoints;
pub mod set_variable;
mod shown;
mod spaces;
pub mod stack_trace;
mod targets;
mod variables_;
mod view;
pub mod write_memory;

pub use breaks::{BreakAnswer, breaks_for};
pub use looking::look;
pub use shown::Look;
pub use view::View;

//! The parts that messages of the Debug Adapter Protocol are made of: the bodies of responses and events, and what
//! these are made of in turn.
//!
//! A kind of value in messages is a `Part`. `member` writes members of objects, `find` finds them again, and
//! `members` has the names of those of responses and events. Words, bytes and the bytes of an instruction stand in
//! JSON as texts (`address`, `encoded_bytes`, `instruction_bytes`).
//!
//! The body that answers a request has a module of its own, with the request's name (`initialize`, `threads`), and
//! so has that of an event (`stopped`, `output`).
#![tactic(auto)]

mod address;
pub mod continue_;
pub mod continued;
pub mod disassemble;
pub mod encoded_bytes;
pub mod evaluate;
pub mod exited;
pub mod find;
pub mod initialize;
mod instruction_bytes;
pub mod member;
pub mod members;
pub mod output;
pub mod part;
pub mod read_memory;
pub mod scopes;
pub mod set_breakpoints;
pub mod set_function_breakpoints;
pub mod set_instruction_breakpoints;
pub mod set_variable;
pub mod stack_trace;
pub mod stopped;
pub mod threads;
pub mod variables;
pub mod write_memory;

pub use disassemble::{Disassemble, Instruction};
pub use evaluate::Evaluate;
pub use exited::Exited;
pub use output::{Category, Output};
pub use part::Part;
pub use read_memory::ReadMemory;
pub use scopes::{Scope, Scopes};
pub use set_breakpoints::{SetBreakpoints, SourceBreakpoint};
pub use set_function_breakpoints::SetFunctionBreakpoints;
pub use set_instruction_breakpoints::{InstructionBreakpoint, SetInstructionBreakpoints};
pub use set_variable::SetVariable;
pub use stack_trace::{Source, StackFrame, StackTrace};
pub use stopped::{Reason, Stopped};
pub use variables::{Variable, Variables};
pub use write_memory::WriteMemory;

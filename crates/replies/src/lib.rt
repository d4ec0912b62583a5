//! What the adapter says: the responses and the events of the Debug Adapter Protocol, written to the
//! bodies of frames and read from them.
//!
//! `response` and `event` list the bodies. Each is of `message_parts`, from a module with the name of its
//! request or event, and is exported here too.
#![tactic(auto)]

pub mod event;
pub mod laws;
pub mod message;
mod reading;
pub mod response;
mod writing;

pub use event::Event;
pub use message::{Message, read_message, write_message};
pub use message_parts::{
    Category, Disassemble, Evaluate, Exited, Instruction, InstructionBreakpoint, Output,
    ReadMemory, Reason, Scope, Scopes, SetBreakpoints, SetFunctionBreakpoints,
    SetInstructionBreakpoints, SetVariable, Source, SourceBreakpoint, StackFrame, StackTrace,
    Stopped, Variable, Variables, WriteMemory, disassemble, evaluate, exited, output, read_memory,
    scopes, set_breakpoints, set_function_breakpoints, set_instruction_breakpoints, set_variable,
    stack_trace, stopped, variables, write_memory,
};
pub use response::{Outcome, Response, ResponseBody};

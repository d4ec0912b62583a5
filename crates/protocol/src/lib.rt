//! What an editor says: the requests of the Debug Adapter Protocol, read from the bodies of frames.
//!
//! A request has a module of its own name (`continue_` for `continue`), with its arguments and how
//! they are read. `command` lists the requests. `argument` reads an argument by its type.
#![tactic(auto)]

mod argument;
pub mod attach;
mod bytes;
pub mod cancel;
pub mod command;
pub mod configuration_done;
pub mod continue_;
pub mod disassemble;
pub mod disconnect;
pub mod entries;
pub mod evaluate;
pub mod filter;
pub mod granularity;
pub mod initialize;
pub mod json;
pub mod launch;
pub mod laws;
pub mod members;
pub mod next;
pub mod pause;
mod properties;
pub mod read_memory;
pub mod refusal;
pub mod request;
pub mod restart;
pub mod reverse_continue;
pub mod scopes;
pub mod set_breakpoints;
pub mod set_exception_breakpoints;
pub mod set_function_breakpoints;
pub mod set_instruction_breakpoints;
pub mod set_variable;
pub mod stack_trace;
pub mod step_arguments;
pub mod step_back;
pub mod step_in;
pub mod step_out;
pub mod terminate;
pub mod text;
pub mod thread_arguments;
pub mod threads;
pub mod unread;
pub mod variables;
pub mod write_memory;

pub use cancel::CancelArguments;
pub use command::Command;
pub use disassemble::DisassembleArguments;
pub use disconnect::DisconnectArguments;
pub use entries::Entries;
pub use evaluate::EvaluateArguments;
pub use filter::Filter;
pub use granularity::Granularity;
pub use initialize::InitializeArguments;
pub use launch::LaunchArguments;
pub use properties::LAST_SEQ;
pub use read_memory::ReadMemoryArguments;
pub use refusal::Refusal;
pub use request::{Incoming, MessageError, Request, read_request};
pub use scopes::ScopesArguments;
pub use set_breakpoints::{SetBreakpointsArguments, Source, SourceBreakpoint};
pub use set_function_breakpoints::{FunctionBreakpoint, SetFunctionBreakpointsArguments};
pub use set_instruction_breakpoints::{InstructionBreakpoint, SetInstructionBreakpointsArguments};
pub use set_variable::SetVariableArguments;
pub use stack_trace::StackTraceArguments;
pub use step_arguments::StepArguments;
pub use text::Text;
pub use thread_arguments::ThreadArguments;
pub use unread::Unread;
pub use variables::VariablesArguments;
pub use write_memory::WriteMemoryArguments;

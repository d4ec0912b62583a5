//! The names of the members of responses and events, each of them once. Those that requests have too are
//! `protocol`'s.

pub use protocol::members::{COMMAND, EVENT, RESPONSE, SEQ, THREAD_ID, TYPE};

/// The number of the request that is answered (`Response.request_seq`).
pub const REQUEST_SEQ: &str = "request_seq";
/// Whether the request succeeded (`Response.success`).
pub const SUCCESS: &str = "success";
/// The name of the refusal (`Response.message`), why a breakpoint is not set (`Breakpoint.message`).
pub const MESSAGE: &str = "message";
/// What the answer or the event is made of (`Response.body`, `Event.body`).
pub const BODY: &str = "body";
/// What is said of a refusal (`ErrorResponse.body.error`).
pub const ERROR: &str = "error";
/// The number of a refusal (`Message.id`), of a thread (`Thread.id`).
pub const ID: &str = "id";
/// The text of a refusal for people (`Message.format`).
pub const FORMAT: &str = "format";
/// Which threads there are (`ThreadsResponse.body.threads`).
pub const THREADS: &str = "threads";
/// The name of a thread (`Thread.name`).
pub const NAME: &str = "name";
/// The number of a column (`StackFrame.column`).
pub const COLUMN: &str = "column";
/// The address at which a frame is (`StackFrame.instructionPointerReference`).
pub const INSTRUCTION_POINTER_REFERENCE: &str = "instructionPointerReference";
/// The number of a line (`StackFrame.line`, `Breakpoint.line`).
pub const LINE: &str = "line";
/// Where a source is (`Source.path`).
pub const PATH: &str = "path";
/// The source of a line (`StackFrame.source`).
pub const SOURCE: &str = "source";
/// The frames of a stopped program (`StackTraceResponse.body.stackFrames`).
pub const STACK_FRAMES: &str = "stackFrames";
/// How many frames there are (`StackTraceResponse.body.totalFrames`).
pub const TOTAL_FRAMES: &str = "totalFrames";
/// Whether every thread continues (`ContinueResponse.body.allThreadsContinued`, `ContinuedEvent`).
pub const ALL_THREADS_CONTINUED: &str = "allThreadsContinued";
/// What became of breakpoints (`SetBreakpointsResponse.body.breakpoints`).
pub const BREAKPOINTS: &str = "breakpoints";
/// The address of a breakpoint (`Breakpoint.instructionReference`).
pub const INSTRUCTION_REFERENCE: &str = "instructionReference";
/// Whether a breakpoint is set (`Breakpoint.verified`).
pub const VERIFIED: &str = "verified";
/// The groups of variables of a frame (`ScopesResponse.body.scopes`).
pub const SCOPES: &str = "scopes";
/// Whether a group of variables is expensive to show (`Scope.expensive`).
pub const EXPENSIVE: &str = "expensive";
/// How to show something (`Scope.presentationHint`, `DisassembledInstruction.presentationHint`).
pub const PRESENTATION_HINT: &str = "presentationHint";
/// The number of a group of variables, 0 for none (`Scope.variablesReference`).
pub const VARIABLES_REFERENCE: &str = "variablesReference";
/// Variables (`VariablesResponse.body.variables`).
pub const VARIABLES: &str = "variables";
/// The value of a variable (`Variable.value`).
pub const VALUE: &str = "value";
/// The value of an expression (`EvaluateResponse.body.result`).
pub const RESULT: &str = "result";
/// How many bytes were written (`WriteMemoryResponse.body.bytesWritten`).
pub const BYTES_WRITTEN: &str = "bytesWritten";
/// The name of an event (`Event.event`).
pub const EVENT_NAME: &str = "event";
/// Whether every thread stopped (`StoppedEvent.body.allThreadsStopped`).
pub const ALL_THREADS_STOPPED: &str = "allThreadsStopped";
/// The breakpoints that stopped the program (`StoppedEvent.body.hitBreakpointIds`).
pub const HIT_BREAKPOINT_IDS: &str = "hitBreakpointIds";
/// Why the program stopped (`StoppedEvent.body.reason`).
pub const REASON: &str = "reason";
/// What more is to say of the reason (`StoppedEvent.body.text`).
pub const TEXT: &str = "text";
/// Whose output it is (`OutputEvent.body.category`).
pub const CATEGORY: &str = "category";
/// The text to show (`OutputEvent.body.output`).
pub const OUTPUT: &str = "output";
/// The program's exit code (`ExitedEvent.body.exitCode`).
pub const EXIT_CODE: &str = "exitCode";
/// An address (`DisassembledInstruction.address`, `ReadMemoryResponse.body.address`).
pub const ADDRESS: &str = "address";
/// The text of an instruction (`DisassembledInstruction.instruction`).
pub const INSTRUCTION: &str = "instruction";
/// The bytes of an instruction (`DisassembledInstruction.instructionBytes`).
pub const INSTRUCTION_BYTES: &str = "instructionBytes";
/// The instructions at an address (`DisassembleResponse.body.instructions`).
pub const INSTRUCTIONS: &str = "instructions";
/// Bytes of memory (`ReadMemoryResponse.body.data`).
pub const DATA: &str = "data";
/// How many bytes of memory cannot be read (`ReadMemoryResponse.body.unreadableBytes`).
pub const UNREADABLE_BYTES: &str = "unreadableBytes";

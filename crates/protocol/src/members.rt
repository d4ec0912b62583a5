//! The names of the members of the protocol's JSON objects, and the kinds of message, each of them
//! once. A member of one request's arguments stands in that request's module.

/// The number of a message (`ProtocolMessage.seq`).
pub const SEQ: &str = "seq";
/// What kind of message it is (`ProtocolMessage.type`).
pub const TYPE: &str = "type";
/// The request's name (`Request.command`, `Response.command`).
pub const COMMAND: &str = "command";
/// What the request is given (`Request.arguments`).
pub const ARGUMENTS: &str = "arguments";

/// The `type` of a request.
pub const REQUEST: &str = "request";
/// The `type` of a response.
pub const RESPONSE: &str = "response";
/// The `type` of an event.
pub const EVENT: &str = "event";

// ---- what the arguments of several requests have

/// A thread (`ContinueArguments.threadId`, for one).
pub const THREAD_ID: &str = "threadId";
/// A frame of the call stack (`ScopesArguments.frameId`, for one).
pub const FRAME_ID: &str = "frameId";
/// The reference of a scope (`VariablesArguments.variablesReference`, for one).
pub const VARIABLES_REFERENCE: &str = "variablesReference";
/// Breakpoints (`SetBreakpointsArguments.breakpoints`, for one).
pub const BREAKPOINTS: &str = "breakpoints";
/// A breakpoint's condition (`SourceBreakpoint.condition`, for one).
pub const CONDITION: &str = "condition";
/// Which of a breakpoint's hits stops (`SourceBreakpoint.hitCondition`, for one).
pub const HIT_CONDITION: &str = "hitCondition";
/// An address in memory (`ReadMemoryArguments.memoryReference`, for one).
pub const MEMORY_REFERENCE: &str = "memoryReference";
/// What is added to an address, in bytes (`ReadMemoryArguments.offset`, for one).
pub const OFFSET: &str = "offset";
/// How many are asked for (`ReadMemoryArguments.count`, for one).
pub const COUNT: &str = "count";

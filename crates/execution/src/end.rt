//! How an execution ends.

use stepping::Reason;

/// How an execution ends.
#[derive(Clone, Copy, Debug, PartialEq, Eq)]
pub enum ExecutionEnd {
    /// The program ended with this code.
    Ended(i32),
    /// An instruction trapped or an EBREAK retired; or a breakpoint or a goal that the machine has stopped it.
    Stopped(Reason),
    /// As many instructions as were allowed went.
    Limit,
    /// More was printed than was allowed.
    OutputLimit,
}

/// Why an execution was given up.
#[derive(Clone, Copy, Debug, PartialEq, Eq)]
pub enum ExecutionFault {
    /// The writer failed, or took nothing where some was left.
    Write,
    /// No memory was left.
    NoMemory,
}

//! What is told of a line.

use assembler::AsmErrorKind;
use statements::LineError;

/// What is told.
#[derive(Clone, Copy, Debug)]
pub enum Reason {
    /// The rewritten text does not assemble.
    Assembler(AsmErrorKind),
    /// This, in words.
    Words(&'static str),
}

/// What is told of a line of a text.
#[derive(Clone, Copy, Debug)]
pub struct Remark {
    /// The line, counted from 1; 0 where it is the text as a whole.
    pub line: usize,
    /// What is told of it.
    pub reason: Reason,
}

/// The kind of what is wrong with a line before any address is known.
pub(crate) fn kind_of(error: LineError) -> AsmErrorKind {
    match error {
        LineError::Syntax => AsmErrorKind::Syntax,
        LineError::UnknownInstruction => AsmErrorKind::UnknownInstruction,
        LineError::BadOperand => AsmErrorKind::BadOperand,
        LineError::OutOfRange => AsmErrorKind::OutOfRange,
        LineError::NoMemory => AsmErrorKind::NoMemory,
    }
}

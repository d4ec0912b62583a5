//! What is wrong with a line.

use thiserror::Error;

/// What belongs to a word.
#[derive(Clone, Copy, Debug, PartialEq, Eq, Error)]
pub enum Argument {
    /// Where something is.
    #[error("a line, a label or *ADDRESS")]
    Place,
    /// An expression.
    #[error("an expression")]
    Expression,
    /// A text that is said.
    #[error("a text")]
    Text,
    /// A number.
    #[error("a number")]
    Number,
    /// An `=`, and the value after it.
    #[error("= and a value")]
    Value,
}

/// What is wrong with a line.
#[derive(Clone, Copy, Debug, PartialEq, Eq, Error)]
pub enum LineFault {
    /// Its word is none that is known.
    #[error("no such command")]
    UnknownWord,
    /// What belongs to its word is missing, or a part of that.
    #[error("{0} is missing")]
    Missing(Argument),
    /// Something stands where a number belongs, and is none: decimal digits that write at most 4,294,967,295.
    #[error("no number")]
    NotANumber,
    /// Something follows, and nothing may.
    #[error("nothing may follow here")]
    Unexpected,
    /// A text is not UTF-8.
    #[error("no UTF-8")]
    NotUtf8,
}

/// The first thing that is wrong with a line.
#[derive(Clone, Copy, Debug, PartialEq, Eq, Error)]
#[error("{fault}, column {column}")]
pub struct LineError {
    /// What is wrong.
    pub fault: LineFault,
    /// The column where that begins, in bytes from 1; of what is missing, where it belongs.
    pub column: usize,
}

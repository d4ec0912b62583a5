//! Why there is no listing.

use assembler::AsmError;
use thiserror::Error;

/// Why there is no listing.
#[derive(Clone, Copy, Debug, PartialEq, Eq, Error)]
pub enum ListFault {
    /// Something is wrong with the text.
    #[error("{0}")]
    Assembly(AsmError),
    /// The writer failed.
    #[error("write fault")]
    Write,
    /// No memory was left.
    #[error("no memory")]
    NoMemory,
}

//! Why no number is issued, and why none is found.

ghost use Rattle.std.specs.Prelude.{◌≡◌};

use std::alloc::AllocError;
use thiserror::Error;

/// Why no numbers are issued.
#[derive(Clone, Copy, Debug, PartialEq, Eq, Error)]
pub enum IssueError {
    /// The numbers would pass the last one.
    #[error("no numbers are left")]
    Exhausted,
    /// No memory was left.
    #[error("no memory is left")]
    NoMemory,
}

/// Why a number refers to nothing.
#[derive(Clone, Copy, Debug, PartialEq, Eq, Error)]
pub enum FindError {
    /// It was never issued.
    #[error("the number was never issued")]
    Unknown,
    /// It was issued in an earlier stop.
    #[error("the number was issued in an earlier stop")]
    Stale,
}

impl From<AllocError> for IssueError {
    ghost use Rattle.variables.specs.declared.error.IssueError.TheVariants.{NoMemory};

    ghost from_gives = { λ _ error. error ≡ NoMemory };

    fn from(_: AllocError) -> IssueError {
        IssueError::NoMemory
    }
}

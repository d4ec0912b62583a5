//! What can be wrong with an expression.

ghost use Rattle.std.specs.Prelude.{◌≡◌};
ghost use Rattle.breakpoints.specs.declared.error.ExprError.TheVariants.{NoMemory};

use std::alloc::AllocError;
use thiserror::Error;

/// Why a text is no expression.
#[derive(Clone, Copy, Debug, PartialEq, Eq, Error)]
pub enum ExprError {
    /// The grammar gives it no tree.
    #[error("no expression")]
    Syntax,
    /// Its brackets and unary operators nest more than 64 deep.
    #[error("an expression that nests too deep")]
    TooDeep,
    /// It has more than 1,024 bytes.
    #[error("an expression that is too long")]
    TooLong,
    /// No memory was left.
    #[error("no memory")]
    NoMemory,
}

impl From<AllocError> for ExprError {
    ghost from_gives = { λ _ error. error ≡ NoMemory };

    fn from(_: AllocError) -> ExprError {
        ExprError::NoMemory
    }
}

/// Why an expression has no value.
#[derive(Clone, Copy, Debug, PartialEq, Eq, Error)]
pub enum ExprFault {
    /// A word that is evaluated has a byte outside memory.
    #[error("a word outside memory")]
    Outside,
}

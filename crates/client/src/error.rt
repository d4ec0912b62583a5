//! Why a request is not sent.

use session::EventError;
use std::alloc::AllocError;
use thiserror::Error;

/// Why a request is not sent.
#[derive(Clone, Copy, Debug, PartialEq, Eq, Error)]
pub enum SendError {
    /// Its number is not above that of the last request, or above 2,147,483,647.
    #[error("no number for a request")]
    Number,
    /// A number in it is outside the range that the protocol gives for it.
    #[error("a number out of range")]
    Range,
    /// The session does not take it.
    #[error("{0}")]
    Session(EventError),
    /// No memory was left.
    #[error("no memory")]
    NoMemory,
}

impl From<AllocError> for SendError {
    ghost use Rattle.std.specs.Prelude.{◌≡◌};
    ghost use Rattle.client.specs.declared.error.SendError.TheVariants.{NoMemory};

    ghost from_gives = { λ _ error. error ≡ NoMemory };

    fn from(_: AllocError) -> SendError {
        SendError::NoMemory
    }
}

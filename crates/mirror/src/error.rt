//! Why a mirror takes nothing more, or a call could not be made.

ghost use Rattle.std.specs.Prelude.{◌≡◌};

use framing::FrameError;
use protocol::MessageError;
use std::alloc::{AllocError, AllocFailed};
use thiserror::Error;

/// Why a mirror takes nothing more, or a call could not be made.
#[derive(Clone, Copy, Debug, PartialEq, Eq, Error)]
pub enum MirrorError {
    /// The stream has a fault where a frame is to begin (base protocol, "Header Part").
    #[error("bad frame")]
    Frame(FrameError),
    /// A body is no message of the adapter (base protocol, "Content Part").
    #[error("bad message")]
    Message(MessageError),
    /// No memory was left.
    #[error("no memory is left")]
    NoMemory,
}

impl From<AllocError> for MirrorError {
    ghost use Rattle.mirror.specs.declared.error.MirrorError.TheVariants.{NoMemory};

    ghost from_gives = { λ _ error. error ≡ NoMemory };

    fn from(_: AllocError) -> MirrorError {
        MirrorError::NoMemory
    }
}

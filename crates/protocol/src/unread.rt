//! Why a part of a message is not read.

use std::alloc::{AllocError, AllocFailed};

/// Why a part of a message is not read.
#[derive(Clone, Copy)]
pub enum Unread {
    /// It is bad: it is missing or of another type than the protocol's schema gives it, a number is out
    /// of range, or that holds of a part of it.
    Bad,
    /// No memory was left.
    NoMemory,
}

impl From<AllocError> for Unread {
    ghost use Rattle.std.specs.Prelude.{◌≡◌};
    ghost use Rattle.protocol.specs.declared.unread.Unread.TheVariants.{NoMemory};

    ghost from_gives = { λ _ error. error ≡ NoMemory };

    fn from(_refused: AllocError) -> Unread {
        Unread::NoMemory
    }
}

impl<T: Drop> From<AllocFailed<T>> for Unread {
    ghost use Rattle.std.specs.Prelude.{◌≡◌};
    ghost use Rattle.protocol.specs.declared.unread.Unread.TheVariants.{NoMemory};

    ghost from_gives = { λ _ error. error ≡ NoMemory };

    fn from(_refused: AllocFailed<T>) -> Unread {
        Unread::NoMemory
    }
}

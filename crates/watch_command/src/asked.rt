//! What is asked of a conversation, and why it was not written to its end.
ghost use Rattle.std.specs.Prelude.{◌≡◌};

use session::ConfigError;
use std::alloc::AllocError;
use thiserror::Error;

/// What is asked for: from which event to which, counted from 1, and whether each message is followed by what an editor then knows.
#[derive(Clone, Copy, Debug, PartialEq, Eq)]
pub struct Asked {
    /// The number of the first.
    pub from: u64,
    /// The number of the last.
    pub to: u64,
    /// Whether what an editor knows is said after each message.
    pub facts: bool,
}

/// Why a conversation was not written to its end.
#[derive(Clone, Copy, Debug, PartialEq, Eq, Error)]
pub enum ReplayFault {
    /// There is no session of this.
    #[error("{0}")]
    Config(ConfigError),
    /// The writer failed, or took nothing.
    #[error("write fault")]
    Write,
    /// No memory was left.
    #[error("no memory")]
    NoMemory,
}

/// Why not all lines were written.
#[derive(Clone, Copy, PartialEq, Eq)]
pub(crate) enum Unwritten {
    /// The writer failed, or took nothing.
    Write,
    /// No memory was left.
    NoMemory,
}

impl From<AllocError> for Unwritten {
    ghost use Rattle.watch_command.specs.declared.asked.Unwritten.TheVariants.{NoMemory};

    ghost from_gives = { λ _ why. why ≡ NoMemory };

    fn from(_: AllocError) -> Unwritten {
        Unwritten::NoMemory
    }
}

//! What ends a run early.

use hex::FromHexError;
use std::alloc::AllocError;
use std::io;

/// Why a command has no answer.
#[derive(Clone, Copy, Debug, PartialEq, Eq)]
pub enum Fault {
    /// The line is no command.
    NoCommand,
    /// The call answered that no memory was left.
    NoMemoryInCall,
    /// The player itself found no memory.
    NoMemory,
    /// A read or a write failed.
    ReadOrWrite,
}

impl Fault {
    /// The status with which a player ends.
    pub fn status(self) -> u8 {
        match self {
            Fault::ReadOrWrite => 1,
            Fault::NoCommand => 2,
            Fault::NoMemoryInCall | Fault::NoMemory => 3,
        }
    }
}

/// Memory that the player itself asked for.
impl From<AllocError> for Fault {
    fn from(_error: AllocError) -> Fault {
        Fault::NoMemory
    }
}

impl From<io::Error> for Fault {
    fn from(error: io::Error) -> Fault {
        match error.kind() {
            io::ErrorKind::OutOfMemory => Fault::NoMemory,
            _ => Fault::ReadOrWrite,
        }
    }
}

impl From<FromHexError> for Fault {
    fn from(error: FromHexError) -> Fault {
        match error {
            FromHexError::OutOfMemory => Fault::NoMemory,
            _ => Fault::NoCommand,
        }
    }
}

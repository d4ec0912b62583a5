//! The files that an editor names.
ghost use Rattle.std.specs.Prelude.{◌≡◌, Some, IfOk};
ghost use Rattle.transport.specs.Files.{KnownReads, Records, IsShort, read_of, read_at};

use session::Bytes;
use std::alloc::{AllocError, Global};
use thiserror::Error;

/// The most bytes that a file may have.
pub const LONGEST_TEXT: usize = 1_048_576;

/// Why a file is not read.
#[derive(Clone, Copy, Debug, PartialEq, Eq, Drop, Error)]
pub enum FileFault {
    /// It cannot be read, or has more than 1,048,576 bytes.
    #[error("unreadable")]
    Unreadable,
    /// No memory was left.
    #[error("no memory")]
    NoMemory,
}

impl From<AllocError> for FileFault {
    ghost use Rattle.transport.specs.declared.files.FileFault.TheVariants.{NoMemory};

    ghost from_gives = { λ _ fault. fault ≡ NoMemory };

    fn from(_: AllocError) -> FileFault {
        FileFault::NoMemory
    }
}

/// Reads the files that an editor names. What a file holds may change from one read to the next.
pub trait Files {
    ghost past: { Self → KnownReads };

    /// What the file at a path holds.
    ///
    /// - `Unreadable`: it cannot be read, or has more than 1,048,576 bytes.
    /// - `NoMemory`: no memory was left.
    fn read(&mut self, alloc: Global, path: &str) -> Result<Bytes, FileFault>
        ensures records { Records (past self.old) (past self.new) (read_of path.now result) }
        ensures short { IfOk result (λ text. IsShort (Some text)) };
}

/// What the file at a path holds: none where it cannot be read. It fails where no memory is left.
pub fn file_at<F: Files>(
    alloc: Global,
    files: &mut F,
    path: &str,
) -> Result<Option<Bytes>, AllocError>
    ensures records { Records (F.past files.old) (F.past files.new) (read_at path.now result) }
    ensures short { IfOk result (λ file. IsShort file) }
{
    match files.read(alloc, path) {
        Ok(text) => Ok(Some(text)),
        Err(FileFault::Unreadable) => Ok(None),
        Err(FileFault::NoMemory) => Err(AllocError),
    }
}

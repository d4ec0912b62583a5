//! What an access to memory can have wrong.

use thiserror::Error;

/// Why memory was not read or written.
#[derive(Clone, Copy, Debug, PartialEq, Eq, Error)]
pub enum MemFault {
    /// The address of a halfword is odd, or that of a word is no multiple of 4.
    #[error("misaligned access")]
    Misaligned,
    /// A byte of the access has no address in memory.
    #[error("access outside memory")]
    Outside,
    /// No memory was left for a page that is written first.
    #[error("no memory")]
    NoMemory,
}

//! Why there are no options.

use std::alloc::AllocError;
use thiserror::Error;

/// Why there are no options.
#[derive(Clone, Copy, Debug, PartialEq, Eq, Error)]
pub enum Usage {
    /// The words ask for nothing that the program does, or for help or the version.
    #[error("usage")]
    Words,
    /// No memory was left.
    #[error("no memory")]
    NoMemory,
}

//! What a stream of frames can have wrong.

use thiserror::Error;

/// Why a stream has no further frame, or why a call could not be made.
#[derive(Clone, Copy, Debug, PartialEq, Eq, Error)]
pub enum FrameError {
    /// A line of the header part is no field.
    #[error("header line is no field")]
    Header,
    /// No field is named `Content-Length`.
    #[error("no content length")]
    NoLength,
    /// More than one field is named `Content-Length`.
    #[error("two content lengths")]
    TwoLengths,
    /// The content length is not 1 to 10 decimal digits.
    #[error("bad content length")]
    BadLength,
    /// The content length is above the limit.
    #[error("content too long")]
    TooLong,
    /// The first 4,096 bytes hold no end of the header part.
    #[error("header too long")]
    HeaderTooLong,
    /// No memory was left.
    #[error("no memory")]
    NoMemory,
}

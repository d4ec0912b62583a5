//! How driving ends.

/// How driving or serving ends.
#[derive(Clone, Copy, Debug, PartialEq, Eq)]
pub enum DriveEnd {
    /// The input ended, or all was said on the connection; or the door accepts no further connection.
    Closed,
    /// A call of the wire, or of the door, failed.
    Fault,
    /// All turns were made.
    Turns,
    /// No memory was left.
    NoMemory,
}

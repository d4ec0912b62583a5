//! Whether the machine runs.

/// What is known of whether the machine runs.
#[derive(Clone, Copy, Debug, PartialEq, Eq)]
pub enum RunState {
    /// Nothing.
    Unknown,
    /// It runs (`ContinuedEvent`).
    Running,
    /// It stopped (`StoppedEvent`).
    Stopped,
    /// It has ended (`TerminatedEvent`), with this exit code if one was told (`ExitedEvent`).
    Ended(Option<i32>),
}

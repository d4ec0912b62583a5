//! How far a recording has come.

/// How far a recording has come.
#[derive(Clone, Copy, Debug, PartialEq, Eq)]
pub struct Progress {
    /// How many texts were kept.
    pub copies: u32,
    /// The moves of a slice whose line is not written yet.
    pub waiting: Option<u32>,
}

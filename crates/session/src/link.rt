//! The connection of an editor.

use handlers::Terms;

/// The connection of an editor, as far as a few numbers say it.
#[derive(Clone, Copy, Debug, PartialEq, Eq)]
pub struct Link {
    /// The number of the last message that was queued on it; 0 before the first.
    pub seq: u32,
    /// What was agreed on it.
    pub terms: Terms,
    /// Whether it takes nothing more.
    pub is_closing: bool,
}

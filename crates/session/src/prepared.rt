//! An answer that is written before anything is changed or queued.

use crate::draft::Draft;
use handlers::{Change, Terms};

/// An answer that is written before anything is changed or queued.
#[derive(Drop)]
pub struct Prepared {
    /// What it changes.
    pub change: Change,
    /// What is agreed.
    pub terms: Terms,
    /// Whether the connection takes nothing more.
    pub closes: bool,
    /// The response, and what the editor is told after it.
    pub draft: Draft,
}

//! What the program moves for.

use prompt::{Direction, Motion};

/// What the program moves for, while it does.
#[derive(Drop)]
pub(crate) enum Errand {
    /// Nothing.
    Nothing,
    /// This motion, and this many times more.
    Motion(Motion, u32),
    /// Until the value of an expression is another one.
    Change(Change),
}

/// A change that is looked for.
#[derive(Drop)]
pub(crate) struct Change {
    /// Which way.
    pub(crate) direction: Direction,
    /// The expression, as it was typed.
    pub(crate) text: String,
    /// The same, as the session is asked for it.
    pub(crate) expression: String,
    /// The value that it had.
    pub(crate) value: u32,
    /// Whether breakpoints look for another one.
    pub(crate) is_watched: bool,
    /// How many moves it may still take.
    pub(crate) left: u32,
}

impl Errand {
    /// How many of these moves may be made at once.
    pub(crate) fn most(&self, moves: u32) -> u32 {
        match self {
            Errand::Change(change) if change.is_watched => moves.min(change.left),
            _ => moves,
        }
    }

    /// So many moves were made. Whether no more may be is told.
    pub(crate) fn is_spent(&mut self, moved: u32) -> bool {
        match self {
            Errand::Change(change) if change.is_watched => {
                change.left = change.left.saturating_sub(moved);
                change.left == 0
            }
            _ => false,
        }
    }
}

/// The most moves after which a change is looked for no more.
pub(crate) const MOST_MOVES: u32 = 1_000_000;

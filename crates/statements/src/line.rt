//! What a line says.
ghost use Rattle.std.specs.Prelude.{◌≡◌};

use crate::name::Name;
use crate::statement::Statement;
use std::marker::Model;

/// The labels of a line. A contract sees the list of their names.
#[derive(Drop)]
pub struct Labels<'a> {
    list: Vec<Name<'a>>,
}

impl<'a> Model for Labels<'a> {
    ghost use Rattle.std.specs.Prelude.{List, ℕ};

    ghost Value = { List (List ℕ) };

    ghost view = { λ l. l.list.items };
}

impl<'a> Labels<'a> {
    /// The labels of these names.
    pub(crate) fn new(list: Vec<Name<'a>>) -> Labels<'a>
        ensures { result ≡ list.entry.items }
    {
        Labels { list }
    }

    /// Their names, lent.
    pub fn as_slice(&self) -> &[Name<'a>]
        ensures { result.now ≡ self.now }
    {
        self.list.as_slice()
    }
}

/// What a line says.
#[derive(Drop)]
pub struct Line<'a> {
    /// The labels that it defines, in order.
    pub labels: Labels<'a>,
    /// What it states, if anything.
    pub statement: Option<Statement<'a>>,
}

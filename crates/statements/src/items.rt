//! Items of data.
ghost use Rattle.std.specs.Prelude.{◌≡◌};

use crate::name::Name;
use std::marker::Model;

/// How many bytes an item of data has.
#[derive(Clone, Copy, Debug, PartialEq, Eq)]
pub enum Width {
    /// One.
    Byte,
    /// Two.
    Half,
    /// Four.
    Word,
}

/// An item of data.
#[derive(Drop)]
pub enum Item<'a> {
    /// The address of a label.
    Label(Name<'a>),
    /// A number of 32 bits: as many of the lowest are taken as the item has.
    Number(u32),
}

/// A list of items. A contract sees the list.
#[derive(Drop)]
pub struct Items<'a> {
    list: Vec<Item<'a>>,
}

impl<'a> Model for Items<'a> {
    ghost use Rattle.std.specs.Prelude.{List};
    ghost use Rattle.statements.specs.declared.items.Item.{Item};

    ghost Value = { List Item };

    ghost view = { λ i. i.list.items };
}

impl<'a> Items<'a> {
    /// The items of this list.
    pub(crate) fn new(list: Vec<Item<'a>>) -> Items<'a>
        ensures { result ≡ list.entry.items }
    {
        Items { list }
    }

    /// The items, lent.
    pub fn as_slice(&self) -> &[Item<'a>]
        ensures { result.now ≡ self.now }
    {
        self.list.as_slice()
    }
}

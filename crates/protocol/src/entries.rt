//! Lists that a message holds.
ghost use Rattle.std.specs.Prelude.{◌≡◌};
ghost use Rattle.serde_json.specs.View.{items_view};
ghost use Rattle.protocol.specs.Arguments.{Reads, each};

use crate::argument::Argument;
use crate::unread::Unread;
use serde_json::Value;
use std::alloc::Global;
use std::marker::Model;

/// The entries of a list in a message, in their order. A contract sees them as a list.
#[derive(Drop)]
pub struct Entries<T> {
    entries: Vec<T>,
}

impl<T> Model for Entries<T> {
    ghost use Rattle.std.specs.Prelude.{List};

    ghost Value = { List T };

    ghost view = { λ e. e.entries.items };
}

impl<T> Entries<T> {
    /// The entries that a `Vec` holds. It takes no memory.
    pub fn from_vec(entries: Vec<T>) -> Entries<T>
        ensures { result ≡ entries.items }
    {
        Entries { entries }
    }

    /// The entries, lent.
    pub fn as_slice(&self) -> &[T]
        ensures { result.now ≡ self.now }
    {
        self.entries.as_slice()
    }

    /// The `Vec` that holds the entries. It takes no memory.
    pub fn into_vec(self) -> Vec<T>
        ensures { result.items ≡ self }
    {
        let Entries { entries } = self;
        entries
    }
}

/// A list; each of its entries is of that type.
impl<T: Argument> Argument for Entries<T> {
    ghost use Rattle.protocol.specs.Arguments.{IsList, list};

    ghost meaning = { list T.meaning };

    ghost takes_memory = { IsList };

    fn read(alloc: Global, value: &Value) -> Result<Entries<T>, Unread> {
        let values = value.as_array().ok_or(Unread::Bad)?;
        read_each(alloc, values.as_slice())
    }
}

/// The entries of a list, one by one.
fn read_each<T: Argument>(alloc: Global, values: &[Value]) -> Result<Entries<T>, Unread>
    ensures { Reads result (each T.meaning (items_view values.now)) }
{
    let mut entries = Vec::with_capacity(alloc, values.len())?;
    for value in values {
        entries.push(T::read(alloc, value)?)?;
    }
    Ok(Entries::from_vec(entries))
}

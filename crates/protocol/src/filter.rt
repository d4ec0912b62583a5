//! The kinds of variables.
ghost use Rattle.std.specs.Prelude.{◌≢◌, Err};
ghost use Rattle.protocol.specs.Arguments.{Reads};
ghost use Rattle.protocol.specs.Filter.{filter_named};

use crate::argument::{Argument, text};
use crate::unread::Unread;
use serde_json::Value;
use std::alloc::Global;

/// A kind of variables (`VariablesArguments.filter`).
#[derive(Clone, Copy, Debug, PartialEq, Eq)]
pub enum Filter {
    /// The elements of a list.
    Indexed,
    /// All others.
    Named,
}

impl Argument for Filter {
    ghost use Rattle.protocol.specs.Filter.{filter_of};

    ghost meaning = { filter_of };

    ghost takes_memory = { λ _. ⊥ };

    fn read(_alloc: Global, value: &Value) -> Result<Filter, Unread> {
        named(text(value)?)
    }
}

/// The kind of that name in the schema.
fn named(name: &str) -> Result<Filter, Unread>
    ensures reads { Reads result (filter_named name.now) }
    ensures memory { result ≢ Err Unread.NoMemory }
{
    match name {
        "indexed" => Ok(Filter::Indexed),
        "named" => Ok(Filter::Named),
        _ => Err(Unread::Bad),
    }
}

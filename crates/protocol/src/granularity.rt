//! How far a step goes.
ghost use Rattle.std.specs.Prelude.{◌≢◌, Err};
ghost use Rattle.protocol.specs.Arguments.{Reads};
ghost use Rattle.protocol.specs.Granularity.{granularity_named};

use crate::argument::{Argument, text};
use crate::unread::Unread;
use serde_json::Value;
use std::alloc::Global;

/// How far a step goes (`NextArguments.granularity`, for one).
pub const GRANULARITY: &str = "granularity";

/// How far a step goes (`SteppingGranularity`).
#[derive(Clone, Copy, Debug, PartialEq, Eq)]
pub enum Granularity {
    /// To another statement.
    Statement,
    /// To another line.
    Line,
    /// To another instruction.
    Instruction,
}

impl Argument for Granularity {
    ghost use Rattle.protocol.specs.Granularity.{granularity_of};

    ghost meaning = { granularity_of };

    ghost takes_memory = { λ _. ⊥ };

    fn read(_alloc: Global, value: &Value) -> Result<Granularity, Unread> {
        named(text(value)?)
    }
}

/// The granularity of that name in the schema.
fn named(name: &str) -> Result<Granularity, Unread>
    ensures reads { Reads result (granularity_named name.now) }
    ensures memory { result ≢ Err Unread.NoMemory }
{
    match name {
        "statement" => Ok(Granularity::Statement),
        "line" => Ok(Granularity::Line),
        "instruction" => Ok(Granularity::Instruction),
        _ => Err(Unread::Bad),
    }
}

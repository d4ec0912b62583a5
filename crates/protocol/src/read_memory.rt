//! The request `readMemory`: bytes of memory are read.
ghost use Rattle.std.specs.Prelude.{◌≡◌, Err};
ghost use Rattle.serde_json.specs.View.{members_view};
ghost use Rattle.protocol.specs.Arguments.{IsText, MayTakeMemory, Reads};
ghost use Rattle.protocol.specs.Properties.{property};
ghost use Rattle.protocol.specs.ReadMemory.{read_memory_arguments};

use crate::Text;
use crate::argument::{optional, required};
use crate::members::{COUNT, MEMORY_REFERENCE, OFFSET};
use crate::unread::Unread;
use serde_json::{Map, Value};
use std::alloc::Global;

/// The request's name.
pub const NAME: &str = "readMemory";

/// Which bytes are asked for (`ReadMemoryArguments`).
#[derive(Drop)]
pub struct ReadMemoryArguments {
    /// The address, as the editor writes it.
    pub memory_reference: Text,
    /// What is added to it, in bytes, from -2,147,483,648 to 2,147,483,647. Absent: 0.
    pub offset: i32,
    /// How many bytes, from 0 to 2,147,483,647.
    pub count: u32,
}

/// The arguments; `Bad` where `memoryReference` is absent or no text; where `count` is absent or no
/// whole number from 0 to 2,147,483,647; or where `offset` is there and is no whole number from
/// -2,147,483,648 to 2,147,483,647.
pub(crate) fn arguments(
    alloc: Global,
    members: &Map<String, Value>,
) -> Result<ReadMemoryArguments, Unread>
    ensures reads { Reads result (read_memory_arguments (members_view members.now.entries)) }
    ensures memory { result ≡ Err Unread.NoMemory → MayTakeMemory IsText
        (property MEMORY_REFERENCE.now (members_view members.now.entries)) }
{
    Ok(ReadMemoryArguments {
        memory_reference: required(alloc, members, MEMORY_REFERENCE)?,
        offset: optional(alloc, members, OFFSET)?.unwrap_or(0),
        count: required(alloc, members, COUNT)?,
    })
}

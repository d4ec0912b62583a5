//! The request `writeMemory`: bytes of memory are written.
ghost use Rattle.std.specs.Prelude.{◌≡◌, Err};
ghost use Rattle.serde_json.specs.View.{members_view};
ghost use Rattle.protocol.specs.Arguments.{IsText, MayTakeMemory, Reads};
ghost use Rattle.protocol.specs.Properties.{property};
ghost use Rattle.protocol.specs.WriteMemory.{write_memory_arguments};

use crate::Text;
use crate::argument::{optional, required};
use crate::members::{MEMORY_REFERENCE, OFFSET};
use crate::unread::Unread;
use byte_strings::Bytes;
use serde_json::{Map, Value};
use std::alloc::Global;

/// The request's name.
pub const NAME: &str = "writeMemory";

/// The bytes (`WriteMemoryArguments.data`).
pub const DATA: &str = "data";
/// Whether some of the bytes may be written alone (`WriteMemoryArguments.allowPartial`).
pub const ALLOW_PARTIAL: &str = "allowPartial";

/// Which bytes are written where (`WriteMemoryArguments`).
#[derive(Drop)]
pub struct WriteMemoryArguments {
    /// The address, as the editor writes it.
    pub memory_reference: Text,
    /// What is added to it, in bytes, from -2,147,483,648 to 2,147,483,647. Absent: 0.
    pub offset: i32,
    /// The bytes.
    pub bytes: Bytes,
    /// Whether the first of them are written where not all can be. Absent: they aren't.
    pub allow_partial: bool,
}

/// The arguments; `Bad` where `memoryReference` is absent or no text; where `data` is absent or no
/// text in base64 with padding; where `offset` is there and is no whole number from -2,147,483,648
/// to 2,147,483,647; or where `allowPartial` is there and is neither true nor false.
pub(crate) fn arguments(
    alloc: Global,
    members: &Map<String, Value>,
) -> Result<WriteMemoryArguments, Unread>
    ensures reads { Reads result (write_memory_arguments (members_view members.now.entries)) }
    ensures memory { result ≡ Err Unread.NoMemory → MayTakeMemory IsText
        (property MEMORY_REFERENCE.now (members_view members.now.entries)) }
{
    Ok(WriteMemoryArguments {
        memory_reference: required(alloc, members, MEMORY_REFERENCE)?,
        offset: optional(alloc, members, OFFSET)?.unwrap_or(0),
        bytes: required(alloc, members, DATA)?,
        allow_partial: optional(alloc, members, ALLOW_PARTIAL)?.unwrap_or(false),
    })
}

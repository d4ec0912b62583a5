//! The body that answers `readMemory`: bytes of memory.
ghost use Rattle.std.specs.Prelude.{OnOk, option_and_then};
ghost use Rattle.protocol.specs.Arguments.{Reads};
ghost use Rattle.serde_json.specs.Find.{get};
ghost use Rattle.serde_json.specs.View.{view};
ghost use Rattle.message_parts.specs.ReadMemory.{read_memory};
ghost use Rattle.message_parts.specs.Written.{IsWritten};

use crate::members::{ADDRESS, DATA, UNREADABLE_BYTES};
use crate::{encoded_bytes, find, member};
use byte_strings::Bytes;
use json::Writer;
use protocol::Unread;
use serde_json::Value;
use std::alloc::{AllocError, Global};

/// Bytes of memory (`ReadMemoryResponse`).
#[derive(Drop)]
pub struct ReadMemory {
    /// The address of the first byte.
    pub address: u32,
    /// The bytes that can be read (`ReadMemoryResponse.body.data`).
    pub bytes: Bytes,
    /// How many of the bytes that were asked for, after these, cannot be read.
    pub unreadable_bytes: u32,
}

/// Writes the body. It fails where no memory is left, and then the writer is of no more use.
pub fn body(alloc: Global, out: &mut Writer, memory: &ReadMemory) -> Result<(), AllocError>
    ensures { OnOk result (IsWritten out.old out.new (read_memory.value memory.now)) }
{
    out.begin_object()?;
    member::address(out, ADDRESS, memory.address)?;
    encoded_bytes::member(alloc, out, DATA, &memory.bytes)?;
    member::number_unless_0(out, UNREADABLE_BYTES, memory.unreadable_bytes)?;
    out.end_object()
}

/// The body that the member of this name is taken for. `Bad` where there is no such member or it is taken
/// for none, `NoMemory` where no memory is left.
pub fn find(alloc: Global, value: &Value, name: &str) -> Result<ReadMemory, Unread>
    ensures { Reads result (option_and_then read_memory.found (get name.now (view value.now))) }
{
    match value.get(name) {
        Some(member) => read(alloc, member),
        None => Err(Unread::Bad),
    }
}

/// What the JSON value is taken for; `Bad` where it is taken for none.
fn read(alloc: Global, value: &Value) -> Result<ReadMemory, Unread>
    ensures { Reads result (read_memory.found (view value.now)) }
{
    Ok(ReadMemory {
        address: find::address(value, ADDRESS)?,
        bytes: encoded_bytes::find(alloc, value, DATA)?,
        unreadable_bytes: find::number_if(value, UNREADABLE_BYTES)?.unwrap_or(0),
    })
}

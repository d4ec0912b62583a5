//! The body that answers `writeMemory`: how many bytes were written.

use crate::members::BYTES_WRITTEN;
use crate::part::Part;
use crate::{find, member};
use json::Writer;
use protocol::Unread;
use serde_json::Value;
use std::alloc::{AllocError, Global};

/// How much was written to memory (`WriteMemoryResponse`).
#[derive(Drop)]
pub struct WriteMemory {
    /// How many bytes were written.
    pub bytes_written: u32,
}

impl Part for WriteMemory {
    ghost use Rattle.message_parts.specs.WriteMemory.{write_memory};

    ghost form = { write_memory };

    fn write(&self, out: &mut Writer) -> Result<(), AllocError> {
        out.begin_object()?;
        member::number(out, BYTES_WRITTEN, self.bytes_written)?;
        out.end_object()
    }

    fn read(_alloc: Global, value: &Value) -> Result<WriteMemory, Unread> {
        Ok(WriteMemory {
            bytes_written: find::number(value, BYTES_WRITTEN)?,
        })
    }
}

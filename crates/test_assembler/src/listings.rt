//! Listings.
//!
//! - `writer ROOM`: a writer that takes ROOM bytes, and then fails.
//! - `text BYTES`: writes the listing of a text to it.
//! - `taken`: the bytes that the writer took.

use crate::writer::Taker;
use listing::{ListFault, listing};
use std::alloc::Global;
use testing::{Fault, bytes_of, hexadecimal, parsed, shown};

/// A writer, and what it took.
#[derive(Drop)]
pub(crate) struct Listed {
    writer: Taker,
}

impl Listed {
    /// With a writer that takes nothing.
    pub(crate) fn new(alloc: Global) -> Listed {
        Listed {
            writer: Taker::full(alloc),
        }
    }

    /// What is answered of listings.
    pub(crate) fn answer(&mut self, alloc: Global, arguments: &[&str]) -> Result<String, Fault> {
        match arguments {
            ["writer", room] => {
                self.writer = Taker::new(alloc, parsed(room)?)?;
                shown(alloc, "ok")
            }
            ["text", bytes] => {
                let text = bytes_of(alloc, bytes)?;
                self.list(alloc, &text)
            }
            ["taken"] => hexadecimal(alloc, self.writer.taken()),
            _ => Err(Fault::NoCommand),
        }
    }

    fn list(&mut self, alloc: Global, text: &[u8]) -> Result<String, Fault> {
        match listing(alloc, text, &mut self.writer) {
            Ok(()) => shown(alloc, "ok"),
            Err(ListFault::NoMemory) => Err(Fault::NoMemoryInCall),
            Err(fault) => shown(alloc, fault),
        }
    }
}

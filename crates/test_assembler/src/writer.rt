//! A writer that fails when it is full.

use std::alloc::{AllocError, Global};
use std::io::{Error, ErrorKind, Write};
use std::{cmp, io};

/// A writer that takes this many bytes, and then fails. Their memory is there from the start.
#[derive(Drop)]
pub(crate) struct Taker {
    taken: Vec<u8>,
    room: usize,
}

impl Taker {
    /// A writer that takes nothing.
    pub(crate) fn full(alloc: Global) -> Taker {
        Taker {
            taken: Vec::new(alloc),
            room: 0,
        }
    }

    /// A writer that takes `room` bytes.
    pub(crate) fn new(alloc: Global, room: u32) -> Result<Taker, AllocError> {
        let room = room as usize;
        Ok(Taker {
            taken: Vec::with_capacity(alloc, room)?,
            room,
        })
    }

    /// The bytes that it took.
    pub(crate) fn taken(&self) -> &[u8] {
        self.taken.as_slice()
    }
}

impl Write for Taker {
    fn write(&mut self, bytes: &[u8]) -> io::Result<usize> {
        let count = cmp::min(self.room, bytes.len());
        if count == 0 {
            return Err(Error::from(ErrorKind::Other));
        }
        self.taken.extend_from_slice(&bytes[..count])?;
        self.room -= count;
        Ok(count)
    }

    fn flush(&mut self) -> io::Result<()> {
        Ok(())
    }
}

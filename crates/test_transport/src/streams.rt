//! Streams in memory that give and take as a command says.
ghost use Rattle.std.specs.Prelude.{◌≤◌, IfOk};

use std::alloc::{AllocError, Global};
use std::io::{Error, ErrorKind, Read, Write};
use std::{cmp, io};

/// How many bytes the writer has room for without asking for memory.
const ROOM: usize = 65_536;

/// How a stream goes: each call moves at most `most` bytes, after `interruptions` interruptions, and after
/// `calls_left` calls they fail.
#[derive(Clone, Copy)]
pub(crate) struct Pace {
    pub most: usize,
    pub calls_left: u64,
    pub interruptions: u32,
    pub interrupted: u32,
}

impl Pace {
    fn unhindered() -> Pace {
        Pace {
            most: usize::MAX,
            calls_left: u64::MAX,
            interruptions: 0,
            interrupted: 0,
        }
    }

    /// How many of `count` bytes the next call moves, or why it fails.
    fn next(&mut self, count: usize) -> io::Result<usize>
        ensures { IfOk result (λ moved. moved ≤ count) }
    {
        if self.interrupted < self.interruptions {
            self.interrupted += 1;
            return Err(Error::from(ErrorKind::Interrupted));
        }
        self.interrupted = 0;
        if self.calls_left == 0 {
            return Err(Error::from(ErrorKind::Other));
        }
        self.calls_left -= 1;
        Ok(cmp::min(self.most, count))
    }
}

/// Gives bytes.
#[derive(Drop)]
pub(crate) struct Drip {
    bytes: Vec<u8>,
    read: usize,
    pub pace: Pace,
}

impl Drip {
    pub(crate) fn new(bytes: Vec<u8>) -> Drip {
        Drip {
            bytes,
            read: 0,
            pace: Pace::unhindered(),
        }
    }

    /// What was not read yet.
    pub(crate) fn left(&self) -> &[u8] {
        match self.bytes.get(self.read..) {
            Some(left) => left,
            None => b"",
        }
    }
}

impl Read for Drip {
    fn read(&mut self, buf: &mut [u8]) -> io::Result<usize> {
        let most = cmp::min(buf.len(), self.left().len());
        let count = self.pace.next(most)?;
        if let (Some(into), Some(now)) = (buf.get_mut(..count), self.left().get(..count)) {
            into.copy_from_slice(now);
        }
        self.read = cmp::min(self.read.saturating_add(count), self.bytes.len());
        Ok(count)
    }
}

/// Takes bytes.
#[derive(Drop)]
pub(crate) struct Sink {
    pub bytes: Vec<u8>,
    pub pace: Pace,
}

impl Sink {
    pub(crate) fn new(alloc: Global) -> Result<Sink, AllocError> {
        Ok(Sink {
            bytes: Vec::with_capacity(alloc, ROOM)?,
            pace: Pace::unhindered(),
        })
    }
}

impl Write for Sink {
    fn write(&mut self, buf: &[u8]) -> io::Result<usize> {
        let count = self.pace.next(buf.len())?;
        if let Some(now) = buf.get(..count) {
            self.bytes.extend_from_slice(now)?;
        }
        Ok(count)
    }

    fn flush(&mut self) -> io::Result<()> {
        Ok(())
    }
}

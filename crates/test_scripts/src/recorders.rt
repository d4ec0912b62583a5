//! Events that are told to a recorder in memory.
ghost use Rattle.std.specs.Prelude.{None};

use crate::lent;
use scripts::{Copies, ScriptRecorder, Step};
use std::alloc::{AllocError, Global};
use std::io::{Error, ErrorKind, Write};
use std::{cmp, io};
use testing::{Fault, Line};

/// A script that takes `room` bytes, and then fails. Their memory is there from the start.
#[derive(Drop)]
pub(crate) struct Script {
    pub bytes: Vec<u8>,
    room: usize,
}

impl Script {
    pub(crate) fn new(alloc: Global, room: usize) -> Result<Script, AllocError> {
        Ok(Script {
            bytes: Vec::with_capacity(alloc, room)?,
            room,
        })
    }
}

impl Write for Script {
    fn write(&mut self, bytes: &[u8]) -> io::Result<usize> {
        let count = cmp::min(self.room, bytes.len());
        if count == 0 {
            return Err(Error::from(ErrorKind::Other));
        }
        self.bytes.extend_from_slice(&bytes[..count])?;
        self.room -= count;
        Ok(count)
    }

    fn flush(&mut self) -> io::Result<()> {
        Ok(())
    }
}

/// Copies that are words of an answer, each with its number before it; at most `room` are kept.
#[derive(Drop)]
pub(crate) struct Words<'a> {
    pub line: &'a mut Line,
    pub room: u32,
}

impl<'a> Words<'a> {
    fn add(&mut self, number: u32, text: &[u8]) -> Result<(), Fault> {
        self.line.value(number)?;
        self.line.bytes(text)
    }
}

impl<'a> Copies for Words<'a> {
    ghost kept = { λ _. None };

    fn keep(&mut self, number: u32, text: &[u8]) -> bool {
        if self.room == 0 {
            return false;
        }
        self.room -= 1;
        self.add(number, text).is_ok()
    }
}

/// Tells these events, and finishes for a connection. A turn with a file is told as one that was given the file's path as its text.
pub(crate) fn told<W: Write + Drop, C: Copies + Drop>(
    alloc: Global,
    steps: &[Step],
    script: W,
    copies: C,
    connection: u32,
) -> bool {
    let mut recorder = ScriptRecorder::new(alloc, script, copies);
    for step in steps {
        match step {
            Step::Turn(Some(path)) => recorder.tell_turn(path.as_str().as_bytes()),
            other => recorder.tell(lent(other)),
        }
    }
    recorder.finish(connection)
}

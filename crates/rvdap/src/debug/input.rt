//! Where lines come from: a script, and then standard input.

use crate::debug::lines::{line_of, take_line};
use crate::debug::origins::{Origin, Peer, origin_of, peer_of};
use crate::exit_reason::exit_reason_by;
use blocking_io::{Waiting, can_read};
use commands::ExitReason;
use std::io;
use std::io::{BufReader, Stdin};

/// Where lines come from, and what came of the last one.
#[derive(Drop)]
pub(crate) struct Input<'a> {
    rt: &'a HostRuntime,
    script: &'a [u8],
    typed: BufReader<Waiting<Stdin>>,
    peer: Peer,
    has_ended: bool,
    came: Vec<u8>,
}

impl<'a> Input<'a> {
    /// The lines of a script, and then those of standard input. The error is that no memory was left.
    pub(crate) fn new(rt: &'a HostRuntime, script: &'a [u8]) -> Result<Input<'a>, ExitReason> {
        match BufReader::new(rt.alloc(), Waiting::new(rt.stdin())) {
            Ok(typed) => Ok(Input {
                rt,
                script,
                typed,
                peer: peer_of(&rt.stdin()),
                has_ended: false,
                came: Vec::new(rt.alloc()),
            }),
            Err(error) => Err(exit_reason_by(&error)),
        }
    }

    /// Where the next line comes from.
    pub(crate) fn origin(&self) -> Origin {
        origin_of(self.script, self.peer)
    }

    /// Whether something can be read at once of a line that is typed, or of the end of them.
    pub(crate) fn is_ready(&self) -> Result<bool, ExitReason> {
        if !self.typed.buffer().is_empty() {
            return Ok(true);
        }
        match can_read(&self.rt.stdin()) {
            Ok(ready) => Ok(ready),
            Err(error) => Err(exit_reason_by(&error)),
        }
    }

    /// Takes the next line, and waits for it. Once standard input has ended it is not read again: a terminal would wait for more.
    pub(crate) fn take(&mut self) -> Result<(), ExitReason> {
        match self.read() {
            Ok(()) => Ok(()),
            Err(error) => Err(exit_reason_by(&error)),
        }
    }

    fn read(&mut self) -> io::Result<()> {
        if !self.script.is_empty() {
            return take_line(&mut self.script, &mut self.came);
        }
        self.came.clear();
        if self.has_ended {
            return Ok(());
        }
        take_line(&mut self.typed, &mut self.came)?;
        self.has_ended = self.came.is_empty();
        Ok(())
    }

    /// Whether there was no line any more.
    pub(crate) fn is_at_end(&self) -> bool {
        self.came.is_empty()
    }

    /// The last line that was taken. `None`: it is too long.
    pub(crate) fn line(&self) -> Option<&[u8]> {
        line_of(self.came.as_slice())
    }
}

//! A wire over streams that have descriptors.
ghost use Rattle.std.specs.Prelude.{◌≡◌};
ghost use Rattle.wires.specs.Wires.{Line};
ghost use Rattle.connections.specs.Readers.{Begins};

use crate::outcome::sent;
use crate::reading::{look, read_waiting};
use blocking_io::{Retries, Waiting, can_read};
use std::io::{Read, Write};
use std::os::fd::AsRawFd;
use wires::{Received, Wire, WireFault};

/// A wire over a stream that is read and one that is written, as standard input and standard output. Both may be
/// non-blocking. They keep no bytes of their own, so that the system knows what there is to read. A look asks it, and then
/// reads once: it waits only where another process took these bytes, and the descriptor blocks.
#[derive(Drop)]
pub struct StreamWire<R, W> {
    reader: R,
    writer: Waiting<W>,
    polls: bool,
    faults: u64,
    idle: u64,
    waits: u64,
}

impl<R: Read + AsRawFd, W: Write + AsRawFd> StreamWire<R, W> {
    /// A wire over these. It can poll where the system can say whether there is something to read.
    pub fn new(reader: R, writer: W) -> StreamWire<R, W>
        ensures { Begins (⟦<StreamWire<R, W> as Wire>⟧.line result) (R.remaining reader)
            (W.contents writer) }
    {
        let polls = can_read(&reader).is_ok();
        StreamWire::with_polling(reader, writer, polls)
    }

    /// A wire over these, which can poll or not.
    pub(crate) fn with_polling(reader: R, writer: W, polls: bool) -> StreamWire<R, W>
        ensures line { Begins (⟦<StreamWire<R, W> as Wire>⟧.line result) (R.remaining reader)
            (W.contents writer) }
        ensures polls { (⟦<StreamWire<R, W> as Wire>⟧.line result).polls ≡ polls }
    {
        StreamWire {
            reader,
            writer: Waiting::new(writer),
            polls,
            faults: 0,
            idle: 0,
            waits: 0,
        }
    }

    /// The stream that is read. The one that is written is dropped.
    pub(crate) fn into_reader(self) -> R
    where
        W: Drop,
    {
        let StreamWire {
            reader,
            writer: _,
            polls: _,
            faults: _,
            idle: _,
            waits: _,
        } = self;
        reader
    }
}

impl<R: Read + AsRawFd, W: Write + AsRawFd> Wire for StreamWire<R, W> {
    ghost line = { λ w. record {
      remaining = R.remaining w.reader;
      contents = ⟦<Waiting<W> as Write>⟧.contents w.writer;
      faults = w.faults;
      idle = w.idle;
      waits = w.waits;
      polls = w.polls;
    } };

    fn recv_now(&mut self, room: &mut [u8]) -> Result<Received, WireFault> {
        let found = look(&mut self.reader, room);
        match found {
            Ok(Received::Nothing) => self.idle = self.idle.saturating_add(1),
            Ok(Received::Bytes(_) | Received::End) => {}
            Err(WireFault) => self.faults = self.faults.saturating_add(1),
        }
        found
    }

    fn recv_wait(&mut self, room: &mut [u8]) -> Result<usize, WireFault> {
        self.waits = self.waits.saturating_add(1);
        match read_waiting(&mut self.reader, room, &mut Retries::none()) {
            Ok(count) => Ok(count),
            Err(_) => {
                self.faults = self.faults.saturating_add(1);
                Err(WireFault)
            }
        }
    }

    fn send(&mut self, piece: &[u8]) -> Result<usize, WireFault> {
        let taken = sent(self.writer.write(piece), !piece.is_empty());
        if taken.is_err() {
            self.faults = self.faults.saturating_add(1);
        }
        taken
    }

    fn can_poll(&self) -> bool {
        self.polls
    }

    fn faults(&self) -> u64 {
        self.faults
    }

    fn idle(&self) -> u64 {
        self.idle
    }

    fn waits(&self) -> u64 {
        self.waits
    }
}

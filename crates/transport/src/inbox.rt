//! What was read, and is not yet looked at.
ghost use Rattle.std.specs.Prelude.{◌≡◌, ◌<◌, [], Ok, None, Err, OnOk, OnErr};
ghost use Rattle.transport.specs.Heard.{Heard, HasHeard, HasRead};
ghost use Rattle.transport.specs.Servers.{Polled};
ghost use Rattle.transport.specs.Private.Inbox.{IsEmptied, Takes, polled_of, Reads, reads_after};

use crate::room::room_of;
use crate::server::ServerError;
use framing::Unframer;
use protocol::{Incoming, MessageError, read_request};
use session::{BODY_LIMIT, feed};
use std::alloc::{AllocError, Global};
use std::io::{ErrorKind, Read};
use std::marker::Model;

/// What was read, and is not yet looked at: the bodies that are whole, the frame that is not, and a
/// piece that found no memory. A contract sees the unframer, and that piece.
#[derive(Drop)]
pub struct Inbox {
    alloc: Global,
    unframer: Unframer,
    is_faulty: bool,
    room: Vec<u8>,
    pending: usize,
}

impl Model for Inbox {
    ghost use Rattle.std.specs.Prelude.{◌≡◌, ◌≤◌, take, vec_len};
    ghost use Rattle.transport.specs.Heard.{has_fault};
    ghost use Rattle.transport.specs.Heard.{Unread};

    ghost Value = { Unread };

    ghost view = { λ i. record { unframer = i.unframer; pending = take i.pending i.room.items } };

    ghost invariant = { λ i. (i.pending ≤ vec_len i.room)
        × (i.is_faulty ≡ has_fault i.unframer.tail) };
}

impl Inbox {
    /// Nothing was read yet.
    pub(crate) fn new(alloc: Global) -> Inbox
        ensures { HasRead result (record { read = []; given = [] }) }
    {
        Inbox {
            alloc,
            unframer: Unframer::new(alloc, BODY_LIMIT),
            is_faulty: false,
            room: Vec::new(alloc),
            pending: 0,
        }
    }

    // Feeds the piece that was read, if there is one.
    fn feed(&mut self) -> Result<(), AllocError>
        ensures ok { OnOk result ((heard : Heard) → HasRead self.old heard
            → HasRead self.new heard) }
        ensures all_fed { OnOk result (self.new.pending ≡ []) }
        ensures err { OnErr result (self.new ≡ self.old) }
    {
        if self.pending == 0 {
            return Ok(());
        }
        self.is_faulty = feed(&mut self.unframer, &self.room[..self.pending])?.is_some();
        self.pending = 0;
        Ok(())
    }

    // Takes the next message that an adapter looks at, of the bodies that are whole.
    fn take(&mut self) -> Result<Option<Incoming>, ServerError>
        requires { self.old.pending ≡ [] }
        ensures polled { (heard : Heard) → HasRead self.old heard → Polled heard result self.new }
        ensures emptied { result ≡ Ok None → IsEmptied self.new }
        ensures patient { result ≡ Err ServerError.TooManyReads → ⊥ }
    {
        let taken = take_message(self.alloc, &mut self.unframer);
        polled(taken, self.is_faulty)
    }

    /// Feeds what is pending, and takes the next message that an adapter looks at.
    pub(crate) fn next(&mut self) -> Result<Option<Incoming>, ServerError>
        ensures polled { (heard : Heard) → HasRead self.old heard → Polled heard result self.new }
        ensures emptied { result ≡ Ok None → IsEmptied self.new }
        ensures patient { result ≡ Err ServerError.TooManyReads → ⊥ }
    {
        match self.feed() {
            Ok(()) => self.take(),
            Err(_) => Err(ServerError::NoMemory),
        }
    }

    /// Reads one piece, where nothing is left to give before it, and answers whether there was one; else the input has ended.
    /// It counts the read.
    pub(crate) fn read<R: Read>(
        &mut self,
        reader: &mut R,
        reads: &mut u32,
    ) -> Result<bool, ServerError>
        requires emptied { IsEmptied self.old }
        requires few { reads.old < 2097152 }
        ensures reads { (heard : Heard) → HasRead self.old heard → Reads (R.remaining reader.old)
            (R.remaining reader.new) heard result self.new }
        ensures counts { reads.new ≡ reads_after result reads.old }
        ensures patient { result ≡ Err ServerError.TooManyReads → ⊥ }
    {
        if self.room.is_empty() {
            match room_of(self.alloc) {
                Ok(room) => self.room = room,
                Err(_) => return Err(ServerError::NoMemory),
            }
        }
        *reads += 1;
        match reader.read(&mut self.room) {
            Ok(count) => {
                self.pending = count;
                Ok(count > 0)
            }
            Err(e) if e.kind() == ErrorKind::Interrupted => {
                self.pending = 0;
                Ok(true)
            }
            Err(_) => Err(ServerError::Read),
        }
    }
}

// What a server answers, for what was taken and whether the stream has a fault.
fn polled(
    taken: Result<Option<Incoming>, MessageError>,
    is_faulty: bool,
) -> Result<Option<Incoming>, ServerError>
    ensures { result ≡ polled_of taken is_faulty }
{
    match taken {
        Ok(Some(incoming)) => Ok(Some(incoming)),
        Ok(None) => {
            if is_faulty {
                Err(ServerError::Frame)
            } else {
                Ok(None)
            }
        }
        Err(error) => match error {
            MessageError::NoMemory => Err(ServerError::NoMemory),
            _ => Err(ServerError::Message),
        },
    }
}

// Takes the next message that an adapter looks at. A body that found no memory is not taken.
fn take_message(alloc: Global, unframer: &mut Unframer) -> Result<Option<Incoming>, MessageError>
    ensures takes { (heard : Heard) → HasHeard unframer.old heard
        → Takes heard result unframer.new }
    ensures all { result ≡ Ok None → unframer.new.waiting ≡ [] }
    ensures tail { unframer.new.tail ≡ unframer.old.tail }
{
    while let Some(body) = unframer.peek_body() {
        let incoming = match read_request(alloc, body) {
            Ok(incoming) => incoming,
            Err(error) => return Err(error),
        };
        let _ = unframer.next_body();
        match incoming {
            Incoming::Ignored => {}
            incoming => return Ok(Some(incoming)),
        }
    }
    Ok(None)
}

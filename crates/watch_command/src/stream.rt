//! What comes on a connection.
ghost use Rattle.std.specs.Prelude.{◌≡◌, ◌++◌, [], IfOk, Ok, OnOk};
ghost use Rattle.framing.specs.Reading.Tail.{Partial};
ghost use Rattle.watch_command.specs.Conversing as spec;
ghost use Rattle.watch_command.specs.Private.Conversing as inner;
ghost use Rattle.watch_command.specs.Private.Conversing.{IsReady, SaysWhatCame};

use crate::fed::{feed, left_in, next_unframer};
use crate::shown::{add_bodies, add_line};
use crate::words::words_of;
use framing::Unframer;
use session::{Applied, EventError, LinkFault};
use std::alloc::{AllocError, Global};
use std::marker::Model;

/// The bytes that came on a connection, and what takes them apart.
#[derive(Drop)]
pub(crate) struct Stream {
    alloc: Global,
    bytes: Vec<u8>,
    unframer: Unframer,
}

impl Model for Stream {
    ghost use Rattle.watch_command.specs.Private.Conversing.{Stream};

    ghost Value = { Stream };

    ghost view = { λ s. record { bytes = s.bytes.items; unframer = s.unframer } };
}

impl Stream {
    /// That of a connection on which nothing came. It takes no memory.
    pub(crate) fn new(alloc: Global) -> Stream
        ensures ready { IsReady result }
        ensures tail { result.unframer.tail ≡ Partial [] }
    {
        Stream {
            alloc,
            bytes: Vec::new(alloc),
            unframer: next_unframer(alloc),
        }
    }

    /// The allocator that it has.
    pub(crate) fn alloc(&self) -> Global {
        self.alloc
    }

    /// Appends what an event says of what came, by its number, the piece that it brings, what it was answered, and what closed the
    /// connection. `Err`: no memory was left.
    pub(crate) fn add_came(
        &mut self,
        text: &mut Vec<u8>,
        number: u64,
        piece: &[u8],
        answer: Result<Applied, EventError>,
        fault: Option<LinkFault>,
    ) -> Result<(), AllocError>
        requires { IsReady self.old }
        ensures { OnOk result (SaysWhatCame number piece.now fault answer self.old self.new
            text.old.items text.new.items) }
    {
        match answer {
            Ok(done) => self.add_done(text, number, piece, done, fault),
            Err(_) => Ok(()),
        }
    }

    fn add_done(
        &mut self,
        text: &mut Vec<u8>,
        number: u64,
        piece: &[u8],
        done: Applied,
        fault: Option<LinkFault>,
    ) -> Result<(), AllocError>
        requires { IsReady self.old }
        ensures { OnOk result (SaysWhatCame number piece.now fault (Ok done) self.old self.new
            text.old.items text.new.items) }
    {
        match done {
            Applied::Connect(connection) => self.add_connection(text, number, connection),
            Applied::Recv => self.add_piece(text, number, piece, fault),
            Applied::DropConnection => self.add_left(text, number),
            _ => Ok(()),
        }
    }

    // A connection was made.
    fn add_connection(
        &mut self,
        text: &mut Vec<u8>,
        number: u64,
        connection: u32,
    ) -> Result<(), AllocError>
        ensures ready { OnOk result (IsReady self.new) }
        ensures tail { OnOk result (self.new.unframer.tail ≡ Partial []) }
        ensures line { OnOk result
            (text.new.items ≡ text.old.items ++ spec.connected number connection) }
    {
        let digits = connection.to_string(self.alloc)?;
        add_line(self.alloc, text, number, b" connection ", digits.as_bytes())?;
        *self = Stream::new(self.alloc);
        Ok(())
    }

    // A piece was taken.
    fn add_piece(
        &mut self,
        text: &mut Vec<u8>,
        number: u64,
        piece: &[u8],
        fault: Option<LinkFault>,
    ) -> Result<(), AllocError>
        requires { IsReady self.old }
        ensures { OnOk result (inner.SaysPiece number piece.now fault self.old self.new
            text.old.items text.new.items) }
    {
        self.bytes.extend_from_slice(piece)?;
        feed(&mut self.unframer, piece)?;
        add_bodies(self.alloc, text, number, b" -> ", &mut self.unframer)?;
        add_closing(self.alloc, text, number, fault)?;
        Ok(())
    }

    // The connection ended.
    fn add_left(&mut self, text: &mut Vec<u8>, number: u64) -> Result<(), AllocError>
        requires { IsReady self.old }
        ensures ready { OnOk result (IsReady self.new) }
        ensures tail { OnOk result (self.new.unframer.tail ≡ Partial []) }
        ensures line { OnOk result (text.new.items ≡ text.old.items
            ++ spec.left_over number (spec.rest_of self.old.unframer.tail)) }
    {
        let left = left_in(self.alloc, &self.bytes)?;
        add_left_over(self.alloc, text, number, left)?;
        *self = Stream::new(self.alloc);
        Ok(())
    }
}

// What closed the connection, if something did.
fn add_closing(
    alloc: Global,
    text: &mut Vec<u8>,
    number: u64,
    fault: Option<LinkFault>,
) -> Result<(), AllocError>
    ensures { OnOk result (text.new.items ≡ text.old.items ++ spec.closing number fault) }
{
    match fault {
        Some(fault) => add_line(alloc, text, number, b" -- ", words_of(fault).as_bytes()),
        None => Ok(()),
    }
}

// The bytes after the last whole frame, if there are any.
fn add_left_over(
    alloc: Global,
    text: &mut Vec<u8>,
    number: u64,
    left: &[u8],
) -> Result<(), AllocError>
    ensures { OnOk result (text.new.items ≡ text.old.items ++ spec.left_over number left.now) }
{
    if left.is_empty() {
        return Ok(());
    }
    add_line(alloc, text, number, b" -- ", left)?;
    Ok(())
}

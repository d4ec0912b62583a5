//! The client through which a session is asked, and that it follows.
ghost use Rattle.std.specs.Prelude.{◌≡◌};
ghost use Rattle.client.specs.Following.{Begins};
ghost use Rattle.console.specs.Following.{IsFollowing};

use client::{Client, SendError};
use mirror::Mirror;
use protocol::Request;
use replies::Message;
use session::{ConfigError, EventError, SliceEnd, Sliced};
use std::alloc::{AllocError, Global};
use std::marker::Model;

/// A client that follows a session.
#[derive(Drop)]
pub(crate) struct Link {
    client: Client,
}

impl Model for Link {
    ghost use Rattle.breakpoints.specs.Codes.{coded_tree};
    ghost use Rattle.client.specs.Following.{Kept};
    ghost use Rattle.console.specs.Following.{IsFollowing};
    ghost use Rattle.std.specs.Coded.{codes};

    ghost coded = { Prim.hlevel (codes, coded_tree) };

    ghost Value = { Kept };

    ghost view = { λ l. l.client };

    ghost invariant = { λ l. IsFollowing l.client };
}

impl Link {
    /// One of a new session with this much memory, in bytes.
    ///
    /// `BadMemorySize`: memory cannot have that size.
    pub(crate) fn new(alloc: Global, memory_size: u32) -> Result<Link, ConfigError>
        ensures { Begins memory_size result }
    {
        let client = Client::new(alloc, memory_size)?;
        Ok(Link { client })
    }

    /// The number of the last request; 0 before the first.
    pub(crate) fn last(&self) -> u32 {
        self.client.last()
    }

    /// Sends a request. The answer says whether the session takes it.
    pub(crate) fn send(&mut self, request: &Request) -> Result<bool, AllocError> {
        match self.client.send(request) {
            Ok(()) => Ok(true),
            Err(SendError::NoMemory | SendError::Session(EventError::NoMemory)) => Err(AllocError),
            Err(_) => Ok(false),
        }
    }

    /// Has the first request that waits answered, with this file if it wants one.
    pub(crate) fn turn(&mut self, file: Option<&[u8]>) -> Result<(), AllocError> {
        match self.client.turn(file) {
            Err(EventError::NoMemory) => Err(AllocError),
            _ => Ok(()),
        }
    }

    /// Gives the program time for this many moves, and tells how many it made.
    pub(crate) fn slice(&mut self, moves: u32) -> Result<u32, AllocError> {
        let sliced = self.client.slice(moves);
        moved(sliced)
    }

    /// Takes the messages that wait, which the mirror is fed.
    pub(crate) fn take(&mut self) -> Result<Vec<Message>, AllocError> {
        self.client.take()
    }

    /// The mirror, lent.
    pub(crate) fn mirror(&self) -> &Mirror
        ensures mirror { result.now ≡ self.now.mirror }
        ensures follows { IsFollowing self.now }
    {
        self.client.mirror()
    }
}

fn moved(sliced: Sliced) -> Result<u32, AllocError> {
    match sliced.ending {
        SliceEnd::NoMemory => Err(AllocError),
        _ => Ok(sliced.moved),
    }
}

//! What is kept of a connection while events are done.
ghost use Rattle.std.specs.Prelude.{◌≡◌, ◌<◌, ◌≤◌, IfOk, OnOk, drop, take, length, [], None};
ghost use Rattle.std.specs.Option.{option_copied};
ghost use Rattle.session.specs.declared.event.Event.TheVariants as event;
ghost use Rattle.session.specs.Kept.{Kept};
ghost use Rattle.watch_events.specs.Private.Tracking as spec;
ghost use Rattle.watch_events.specs.Private.Tracking.{Keeps, NotedIf, SameBut, SameWatched, Steps};

use crate::last::last_message;
use session::{Event, EventError, Session, SliceEnd, Snapshot};
use std::alloc::{AllocError, Global};
use std::cmp;
use std::marker::Model;

/// A session, and what is kept of the connection that is watched: the pieces that were accepted on it, the bytes that were queued for it,
/// and what could be seen when the last message was queued that lies wholly in the first `count` of these.
#[derive(Drop)]
pub(crate) struct Track {
    alloc: Global,
    session: Session,
    connection: u32,
    count: usize,
    current: u32,
    accepted: Vec<u8>,
    queued: Vec<u8>,
    snapshot: Option<Snapshot>,
}

impl Model for Track {
    ghost use Rattle.breakpoints.specs.Codes.{coded_tree};
    ghost use Rattle.std.specs.Coded.{codes};
    ghost use Rattle.watch_events.specs.Private.Tracking.{Tracked};

    ghost coded = { Prim.hlevel (codes, coded_tree) };

    ghost Value = { Tracked };

    ghost view = { λ t. record {
      session = t.session;
      connection = t.connection;
      count = t.count;
      current = t.current;
      accepted = t.accepted.items;
      queued = t.queued.items;
      snapshot = t.snapshot;
    } };
}

impl Track {
    /// A session to which nothing happened.
    pub(crate) fn new(alloc: Global, session: Session, connection: u32, count: usize) -> Track
        ensures { result ≡ spec.untouched session connection count }
    {
        Track {
            alloc,
            session,
            connection,
            count,
            current: 0,
            accepted: Vec::new(alloc),
            queued: Vec::new(alloc),
            snapshot: None,
        }
    }

    /// Whether the connection was made that is watched.
    pub(crate) fn is_made(&self) -> bool
        ensures { result ≡ spec.is_made self.now }
    {
        1 <= self.connection && self.connection <= self.current
    }

    /// The pieces that were accepted on it.
    pub(crate) fn accepted(&self) -> &[u8]
        ensures { result.now ≡ self.now.accepted }
    {
        &self.accepted
    }

    /// The bytes that were queued for it.
    pub(crate) fn queued(&self) -> &[u8]
        ensures { result.now ≡ self.now.queued }
    {
        &self.queued
    }

    /// What could be seen when the last message was queued.
    pub(crate) fn into_snapshot(self) -> Option<Snapshot>
        ensures { result ≡ self.snapshot }
    {
        let Track {
            session,
            snapshot,
            ..
        } = self;
        drop(session);
        snapshot
    }

    /// Does an event, which is passed over where it is refused. A slice is given move by move. `Err`: no memory was left.
    pub(crate) fn happen(&mut self, event: &Event) -> Result<(), AllocError>
        ensures keeps { Keeps event.now self.old result self.new }
        ensures same { SameWatched self.old self.new }
    {
        match event {
            Event::Connect => self.connect(),
            Event::Recv(piece) => self.recv(piece.as_slice()),
            Event::Turn(file) => self.turn(file.as_ref().map(|f| f.as_slice())),
            Event::Slice(moves) => self.slice(*moves),
            Event::Hold => self.hold(),
            Event::Sent(count) => self.sent(*count),
            Event::DropConnection => self.drop_connection(),
        }
    }

    fn connect(&mut self) -> Result<(), AllocError>
        ensures keeps { Keeps event.Connect self.old result self.new }
        ensures same { SameWatched self.old self.new }
    {
        if let Ok(number) = self.session.connect() {
            self.current = number;
        }
        Ok(())
    }

    fn recv(&mut self, piece: &[u8]) -> Result<(), AllocError>
        ensures keeps { Keeps (event.Recv piece.now) self.old result self.new }
        ensures same { SameWatched self.old self.new }
    {
        match self.session.recv(piece) {
            Ok(()) => self.accept(piece),
            Err(error) => passed_over(error),
        }
    }

    // The piece was accepted.
    fn accept(&mut self, piece: &[u8]) -> Result<(), AllocError>
        ensures accepts { OnOk result
            (self.new ≡ spec.with_piece (spec.is_current self.old) piece.now self.old) }
        ensures same { SameWatched self.old self.new }
    {
        if self.current == self.connection {
            self.accepted.extend_from_slice(piece)?;
        }
        Ok(())
    }

    fn turn(&mut self, file: Option<&[u8]>) -> Result<(), AllocError>
        ensures keeps { Keeps (event.Turn (option_copied file.entry)) self.old result self.new }
        ensures same { SameWatched self.old self.new }
    {
        let before = self.session.waiting().len();
        match self.session.turn(file) {
            Ok(_) => self.note(before),
            Err(error) => passed_over(error),
        }
    }

    // Gives the program time for these moves, one after the other, so that what each message tells can be seen.
    fn slice(&mut self, moves: u32) -> Result<(), AllocError>
        ensures keeps { Keeps (event.Slice moves) self.old result self.new }
        ensures same { SameWatched self.old self.new }
    {
        let mut ending = self.step(0)?;
        for _made in 0..moves {
            match ending {
                SliceEnd::Spent => ending = self.step(1)?,
                _ => return Ok(()),
            }
        }
        Ok(())
    }

    // A slice whose moves are few enough that what could be seen at each message that it queued can be seen after it.
    fn step(&mut self, moves: u32) -> Result<SliceEnd, AllocError>
        ensures keeps { Steps moves self.old result self.new }
        ensures same { SameWatched self.old self.new }
    {
        let before = self.session.waiting().len();
        let sliced = self.session.slice(moves);
        match sliced.ending {
            SliceEnd::NoMemory => Err(AllocError),
            ending => {
                self.note(before)?;
                Ok(ending)
            }
        }
    }

    fn hold(&mut self) -> Result<(), AllocError>
        ensures keeps { Keeps event.Hold self.old result self.new }
        ensures same { SameWatched self.old self.new }
    {
        self.session.hold();
        Ok(())
    }

    fn sent(&mut self, count: usize) -> Result<(), AllocError>
        ensures keeps { Keeps (event.Sent count) self.old result self.new }
        ensures same { SameWatched self.old self.new }
    {
        let _ = self.session.sent(count);
        Ok(())
    }

    fn drop_connection(&mut self) -> Result<(), AllocError>
        ensures keeps { Keeps event.DropConnection self.old result self.new }
        ensures same { SameWatched self.old self.new }
    {
        let _ = self.session.drop_connection();
        Ok(())
    }

    // Notes the bytes that wait after the first `before`, which were queued just now, if they are of the connection that is watched.
    fn note(&mut self, before: usize) -> Result<(), AllocError>
        ensures noted { OnOk result
            (NotedIf (spec.is_current self.old)
            (drop before self.old.session.waiting) self.old self.new) }
        ensures same { SameBut self.old self.new }
    {
        if self.current != self.connection {
            return Ok(());
        }
        let news = after(self.session.waiting(), before);
        let watched = first(news, self.count.saturating_sub(self.queued.len()));
        if let Some(prints) = last_message(self.alloc, watched)? {
            self.snapshot = Some(seen(&self.session, prints)?);
        }
        self.queued.extend_from_slice(news)
    }
}

// What can be seen; of the program as it runs, where that was asked for.
fn seen(session: &Session, running: bool) -> Result<Snapshot, AllocError>
    ensures { IfOk result (λ seen. spec.IsSeenNow running session.now.now seen) }
{
    let mut seen = session.snapshot()?;
    if running {
        seen.set_running();
    }
    Ok(seen)
}

// An event that was refused is passed over.
fn passed_over(error: EventError) -> Result<(), AllocError>
    ensures { OnOk result (error ≡ EventError.NoMemory → ⊥) }
{
    match error {
        EventError::NoMemory => Err(AllocError),
        _ => Ok(()),
    }
}

// The bytes after the first `count`.
fn after(bytes: &[u8], count: usize) -> &[u8]
    ensures { result.now ≡ drop count bytes.now }
{
    &bytes[cmp::min(count, bytes.len())..]
}

// The first `count` bytes.
fn first(bytes: &[u8], count: usize) -> &[u8]
    ensures { result.now ≡ take count bytes.now }
{
    &bytes[..cmp::min(count, bytes.len())]
}

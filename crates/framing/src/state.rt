//! What is kept of a stream.

ghost use Rattle.std.specs.Prelude.{◌≡◌, ℕ, List, Err, IfSome, IsSome};
ghost use Rattle.std.specs.Option.{option_copied};
ghost use Rattle.std.specs.Borrow.{sem};
ghost use Rattle.framing.specs.Private.Parts.{first_by};
ghost use Rattle.framing.specs.Streams.{Feeds, fault_of, fed, first_of, nothing_fed, retracted};
ghost use Rattle.framing.specs.Lending.{LeavesState};

use crate::FrameError;
use crate::buffer::{append, drop_bytes, reserve_rest};
use crate::split::split;
use crate::start::Start;
use std::alloc::Global;
use std::marker::Model;

/// What was held before the last piece. All that stood before those places stands there still.
#[derive(Clone, Copy)]
pub(crate) struct Mark {
    /// Where the first frame that waited begins.
    pub place: usize,
    /// Where the next frame begins.
    pub done: usize,
    /// How many bytes were held.
    pub size: usize,
    /// How the first frame that waited starts.
    pub first: Start,
    /// How the next frame started.
    pub start: Start,
}

/// A limit, the frames whose bodies wait, and the part of the next frame that has come. What was lent since the
/// last piece is kept until the next one, so that the piece can be taken back without memory.
#[derive(Drop)]
pub(crate) struct State {
    limit: u32,
    /// Frames whose bodies were lent, then those whose bodies wait, and then the part of the next frame that
    /// has come. What the last piece can be taken back with is dropped at the next one.
    bytes: Vec<u8>,
    /// Where the first frame that waits begins.
    place: usize,
    /// Where the next frame begins, which is not whole.
    done: usize,
    /// How the first frame that waits starts: a header part is read once, when it comes, and again only
    /// where its frame waits after others.
    first: Start,
    /// How the next frame starts.
    start: Start,
    /// Where the last piece began, unless it was taken back.
    mark: Option<Mark>,
}

impl Model for State {
    ghost use Rattle.std.specs.Prelude.{drop};
    ghost use Rattle.framing.specs.Streams.{Unframed};
    ghost use Rattle.framing.specs.Private.Parts.{Fits, before_by, tail_by, waiting_in};

    ghost Value = { Unframed };

    ghost view = { λ s. record {
      limit = s.limit;
      waiting = waiting_in s.limit s.bytes.items s.place s.done;
      tail = tail_by s.start (drop s.done s.bytes.items);
      before = before_by s.limit s.bytes.items s.mark;
    } };

    ghost invariant = { λ s. Fits s.limit s.bytes.items s.place s.done s.first s.start s.mark };
}

impl State {
    /// What is kept of a stream on which nothing came.
    pub(crate) fn new(alloc: Global, limit: u32) -> State
        ensures { result ≡ nothing_fed limit }
    {
        State {
            limit,
            bytes: Vec::new(alloc),
            place: 0,
            done: 0,
            first: Start::Waits,
            start: Start::Waits,
            mark: None,
        }
    }

    /// Takes the next piece of the stream. The growth that the piece needs comes first: where it finds
    /// no memory, what is kept is as before.
    pub(crate) fn feed(&mut self, piece: &[u8]) -> Result<(), FrameError>
        ensures kept { Feeds self.old piece.now result self.new }
        ensures faulty { IfSome (fault_of self.old.tail) (λ fault. result ≡ Err fault) }
    {
        if let Start::Breaks(fault) = self.start {
            self.feed_faulty();
            return Err(fault);
        }
        let Ok(dropped) = append(&mut self.bytes, self.place, piece) else {
            return Err(FrameError::NoMemory);
        };
        let done = self.done - dropped;
        let size = self.bytes.len() - piece.len();
        let rest = &self.bytes[done..];
        let start = self.start.with_more(self.limit, rest, size - done);
        let next = split(self.limit, rest, start);
        let first = first_start(self.first, start, next.size < rest.len());
        self.place -= dropped;
        self.mark = Some(Mark {
            place: self.place,
            done,
            size,
            first: self.first,
            start: self.start,
        });
        self.first = first;
        self.done = self.bytes.len() - next.size;
        self.start = next.start;
        if let Start::Breaks(fault) = next.start {
            self.keep_needed();
            return Err(fault);
        }
        reserve_rest(&mut self.bytes, next.start, next.size);
        Ok(())
    }

    /// Takes a piece after a fault: it brings no body.
    fn feed_faulty(&mut self)
        requires { IsSome (fault_of self.old.tail) }
        ensures { (piece : List ℕ) → self.new ≡ fed self.old piece }
    {
        self.mark = Some(Mark {
            place: self.place,
            done: self.done,
            size: self.done,
            first: self.first,
            start: self.start,
        });
        self.keep_needed();
    }

    /// After a fault keeps no more of the stream than the bodies that wait and what the last piece can
    /// be taken back with, nor more memory.
    fn keep_needed(&mut self)
        requires { IsSome (fault_of self.old.tail) }
        ensures { self.new ≡ self.old }
    {
        let Some(mark) = self.mark else {
            return;
        };
        let read = mark.place.min(self.place);
        self.bytes.truncate(mark.size.max(self.done));
        drop_bytes(&mut self.bytes, read);
        self.bytes.shrink_to_fit();
        self.place -= read;
        self.done -= read;
        self.mark = Some(Mark {
            place: mark.place - read,
            done: mark.done - read,
            size: mark.size - read,
            first: mark.first,
            start: mark.start,
        });
    }

    /// Takes back the last piece and the loans since.
    pub(crate) fn retract(&mut self)
        ensures { self.new ≡ retracted self.old }
    {
        let Some(mark) = self.mark else {
            return;
        };
        self.bytes.truncate(mark.size);
        self.place = mark.place;
        self.done = mark.done;
        self.first = mark.first;
        self.start = mark.start;
        self.mark = None;
    }

    /// Lends the next body, which still waits.
    pub(crate) fn peek_body(&self) -> Option<&[u8]>
        ensures { option_copied result ≡ first_of self.now.waiting }
    {
        let waiting = &self.bytes[self.place..self.done];
        let Some((body, _)) = self.first.parts(waiting) else {
            return None;
        };
        Some(body)
    }

    /// Lends the next body. It is kept until the next piece, which it can be taken back with.
    pub(crate) fn next_body(&mut self) -> Option<&[u8]>
        ensures body { option_copied result ≡ first_of self.old.waiting }
        ensures* after { sem 𝓛 (LeavesState self.entry) }
    {
        let waiting = &self.bytes[self.place..self.done];
        let Some((body, after)) = self.first.parts(waiting) else {
            return None;
        };
        let first = Start::of(self.limit, after, 0);
        self.place = self.done - after.len();
        self.first = first;
        Some(body)
    }
}

/// How the first of the frames that wait starts: as it did where one waited, else as the next frame
/// does, if it is whole.
fn first_start(first: Start, start: Start, is_whole: bool) -> Start
    ensures { result ≡ first_by first start is_whole }
{
    match first {
        Start::Begins { .. } => first,
        Start::Waits | Start::Breaks(_) if is_whole => start,
        Start::Waits | Start::Breaks(_) => Start::Waits,
    }
}

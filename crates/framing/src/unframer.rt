//! An unframer: bytes in any pieces, bodies out.

ghost use Rattle.std.specs.Prelude.{◌≡◌, Err, IfSome};
ghost use Rattle.std.specs.Option.{option_copied};
ghost use Rattle.std.specs.Borrow.{sem};
ghost use Rattle.framing.specs.Streams.{Feeds, LendsBody, StandsBefore, StandsFor, TakesBack, TakesPiece, fault_of, first_of, lent_from, nothing_came, nothing_fed, retracted};
ghost use Rattle.framing.specs.Lending.{Leaves};

use crate::FrameError;
use crate::state::State;
use std::alloc::Global;
use std::marker::Model;

/// Takes a stream of frames apart (base protocol, "Header Part" and "Content Part"). The stream comes
/// in pieces, cut anywhere; the bodies are those of the whole stream. A contract sees the limit, the
/// bodies that wait, and the tail: part of the next frame, or the fault that the stream has. It sees
/// the bodies and the tail from before the last piece too, as long as the piece can be taken back.
#[derive(Drop)]
pub struct Unframer {
    state: State,
}

impl Model for Unframer {
    ghost use Rattle.framing.specs.Streams.{Unframed};

    ghost Value = { Unframed };

    ghost view = { λ u. u.state };
}

impl Unframer {
    /// An unframer of a stream on which nothing came. A body may have up to `limit` bytes. The call
    /// takes no memory; the allocator is kept for later.
    pub fn new(alloc: Global, limit: u32) -> Unframer
        ensures kept { result ≡ nothing_fed limit }
        ensures stream { StandsFor result nothing_came }
        ensures before { StandsBefore result nothing_came }
    {
        Unframer {
            state: State::new(alloc, limit),
        }
    }

    /// Takes the next piece of the stream: each body that is whole now waits to be lent.
    ///
    /// An error but `NoMemory` is the fault of the stream so far, the first of `Header`, `NoLength`,
    /// `TwoLengths`, `BadLength` and `TooLong` once a header part is whole, or `HeaderTooLong` at 4,096
    /// bytes of one that is not. It comes as soon as the stream has it, and at each later call; the
    /// bodies before it can still be lent. With a fault no more is kept than `retract` needs. `NoMemory`
    /// changes nothing: the piece can be fed again, and `retract` takes back the one before.
    pub fn feed(&mut self, piece: &[u8]) -> Result<(), FrameError>
        // What is kept is what was kept, continued with the piece.
        ensures kept { Feeds self.old piece.now result self.new }

        // It represents all that was ever fed, and the error is the fault of that. What was kept before
        // represented what was fed before.
        ensures stream { TakesPiece self.old piece.now result self.new }

        // A fault stays, also where no memory is left.
        ensures faulty { IfSome (fault_of self.old.tail) (λ fault. result ≡ Err fault) }
    {
        self.state.feed(piece)
    }

    /// Takes back the last `feed`, its fault too, and the bodies that were lent since: those that were
    /// whole before wait again. It does nothing where no `feed` came since the last `retract`, or ever;
    /// a `feed` that answered `NoMemory` is none. A `feed` on a stream that had a fault is one, and the
    /// earlier fault stays. The call takes no memory.
    pub fn retract(&mut self)
        // What is kept is what was kept before the last piece.
        ensures kept { self.new ≡ retracted self.old }

        // It represents all that was fed before that piece, and the bodies that were lent before it.
        ensures stream { TakesBack self.old self.new }
    {
        self.state.retract()
    }

    /// Lends the body that `next_body` lends next, or `None` where none waits. The body still waits, so
    /// that a caller who finds no memory for what it does with it can come back. It takes no memory.
    pub fn peek_body(&self) -> Option<&[u8]>
        ensures { option_copied result ≡ first_of self.now.waiting }
    {
        self.state.peek_body()
    }

    /// Lends the next body, or `None` where none waits. It takes no memory. `retract` takes the loan back
    /// with the last piece, so the body is kept until the next `feed`.
    pub fn next_body(&mut self) -> Option<&[u8]>
        // The body is the first that waits.
        ensures body { option_copied result ≡ first_of self.old.waiting }

        // Once the loan is over, that body does not wait any more.
        ensures* after { sem 𝓛 (Leaves self.entry) }

        // What is kept then represents all that was ever fed, with the body lent. What was kept before
        // the last piece represents what it did.
        ensures stream { LendsBody self.old (option_copied result) (lent_from self.old) }
    {
        self.state.next_body()
    }
}

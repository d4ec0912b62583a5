//! How long the rest of a connection is read.
ghost use Rattle.std.specs.Prelude.{◌≡◌, nat_lt};
ghost use Rattle.connections.specs.Lingering.{
  most_pieces,
  most_waits,
  IsNext,
  IsNextIf,
  pieces_after,
  waits_after,
};

use wires::{Received, WireFault};

// How many pieces are dropped before the last one. With a room of 4 KiB that is 16 MiB: more than the system holds for a
// connection, and read in a moment.
const MOST_PIECES: u32 = 4_096;

// How often it is waited for a piece.
const MOST_WAITS: u32 = 1_000;

/// How many pieces came, and how often it was waited for one. They are counted by `after` alone.
#[derive(Drop)]
pub(crate) struct Lingering {
    pieces: u32,
    waits: u32,
}

/// What is done next.
#[derive(Clone, Copy)]
pub(crate) enum Next {
    /// There may be more.
    Look,
    /// There may be more later.
    Wait,
}

/// Nothing more is read. Only `Lingering::after` makes one, so a loop that ends has asked it.
#[derive(Drop)]
pub(crate) struct Finished {
    _made: (),
}

impl Lingering {
    /// Nothing came yet.
    pub(crate) fn new() -> Lingering
        ensures pieces { result.pieces ≡ 0 }
        ensures waits { result.waits ≡ 0 }
    {
        Lingering {
            pieces: 0,
            waits: 0,
        }
    }

    /// What is next after a look.
    pub(crate) fn after(&mut self, found: Result<Received, WireFault>) -> Result<Next, Finished>
        ensures next { IsNext self.old.pieces self.old.waits found result }
        ensures pieces { self.new.pieces ≡ pieces_after self.old.pieces result }
        ensures waits { self.new.waits ≡ waits_after self.old.waits result }
    {
        match found {
            Ok(Received::Bytes(_)) => self.after_piece(),
            Ok(Received::Nothing) => self.after_nothing(),
            Ok(Received::End) | Err(WireFault) => Err(Finished { _made: () }),
        }
    }

    fn after_piece(&mut self) -> Result<Next, Finished>
        ensures next { IsNextIf (nat_lt self.old.pieces most_pieces) Next.Look result }
        ensures pieces { self.new.pieces ≡ pieces_after self.old.pieces result }
        ensures waits { self.new.waits ≡ self.old.waits }
    {
        if self.pieces >= MOST_PIECES {
            return Err(Finished { _made: () });
        }
        self.pieces += 1;
        Ok(Next::Look)
    }

    fn after_nothing(&mut self) -> Result<Next, Finished>
        ensures next { IsNextIf (nat_lt self.old.waits most_waits) Next.Wait result }
        ensures pieces { self.new.pieces ≡ self.old.pieces }
        ensures waits { self.new.waits ≡ waits_after self.old.waits result }
    {
        if self.waits >= MOST_WAITS {
            return Err(Finished { _made: () });
        }
        self.waits += 1;
        Ok(Next::Wait)
    }
}

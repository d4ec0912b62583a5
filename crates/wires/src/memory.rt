//! A wire in memory.
ghost use Rattle.std.specs.Prelude.{◌≡◌, ◌<◌, ◌≤◌, ◌++◌, List, ℕ, [], Some, true, false, length, take, IfOk, OnOk, OnErr};
ghost use Rattle.std.specs.Io.KnownBytes.{Appends, IsAtEnd};
ghost use Rattle.wires.specs.Wires.{Line, Failed, Gave, Moved, Still, Took, one_more};

use crate::count::one_more;
use crate::wire::{Received, Wire, WireFault};
use std::alloc::{AllocError, Global};
use std::cmp;
use std::marker::Model;

/// How a wire in memory goes.
#[derive(Clone, Copy, Debug, PartialEq, Eq)]
pub struct Habits {
    /// Whether it can be looked at without waiting.
    pub polls: bool,
    /// How many bytes it takes at once; 0 counts as 1.
    pub most: usize,
    /// Which of its calls fails, of `recv_now`, `recv_wait` and `send` counted together from 1; none if 0.
    pub failing: u64,
}

/// A wire in memory: it gives pieces that were put into it, and holds what it took. A look at an empty
/// piece finds nothing, once; a wait passes it over. After the last piece no more will come. A contract
/// sees it as a `Line`, where all bytes are known.
#[derive(Drop)]
pub struct MemoryWire {
    given: Vec<u8>,
    ends: Vec<usize>,
    start: usize,
    piece: usize,
    taken: Vec<u8>,
    habits: Habits,
    calls: u64,
    faults: u64,
    idle: u64,
    waits: u64,
}

impl Model for MemoryWire {
    ghost use Rattle.std.specs.Prelude.{◌≤◌, Some, drop, vec_len};
    ghost use Rattle.wires.specs.Wires.{Line};

    ghost Value = { Line };

    ghost view = { λ w. record {
      remaining = Some (drop w.start w.given.items);
      contents = Some w.taken.items;
      faults = w.faults;
      idle = w.idle;
      waits = w.waits;
      polls = w.habits.polls;
    } };

    ghost invariant = { λ w. w.start ≤ vec_len w.given };
}

impl MemoryWire {
    /// A wire with no piece.
    pub fn new(alloc: Global, habits: Habits) -> MemoryWire
        ensures { result ≡ record {
          remaining = Some [];
          contents = Some [];
          faults = 0;
          idle = 0;
          waits = 0;
          polls = habits.polls;
        } }
    {
        MemoryWire {
            given: Vec::new(alloc),
            ends: Vec::new(alloc),
            start: 0,
            piece: 0,
            taken: Vec::new(alloc),
            habits,
            calls: 0,
            faults: 0,
            idle: 0,
            waits: 0,
        }
    }

    /// Puts a piece after those that it has.
    pub fn put(&mut self, piece: &[u8]) -> Result<(), AllocError>
        ensures ok { OnOk result (Appends self.old.remaining self.new.remaining piece.now) }
        ensures err { OnErr result (self.new ≡ self.old) }
    {
        self.ends.reserve(1)?;
        self.given.extend_from_slice(piece)?;
        let _ = self.ends.push(self.given.len());
        Ok(())
    }

    /// What it took.
    pub fn taken(&self) -> &[u8]
        ensures { Some result.now ≡ self.now.contents }
    {
        &self.taken
    }

    // Counts a call, and says whether it is the one that fails.
    fn counts(&mut self) -> bool
        ensures ok { result ≡ false → self.new ≡ self.old }
        ensures fails { result ≡ true → Failed self.old self.new [] }
        ensures waits { self.new.waits ≡ self.old.waits }
    {
        self.calls = self.calls.saturating_add(1);
        if self.calls != self.habits.failing {
            return false;
        }
        self.faults = one_more(self.faults);
        true
    }

    // How many bytes are left of the piece that is given.
    fn left_of_piece(&self) -> usize {
        match self.ends.get(self.piece) {
            Some(end) => end.saturating_sub(self.start),
            None => usize::MAX,
        }
    }

    // Whether all was given, and no empty piece comes.
    fn is_at_end(&self) -> bool
        ensures { result ≡ true → IsAtEnd self.now.remaining }
    {
        self.start == self.given.len() && self.piece >= self.ends.len()
    }

    // Gives what is there, at most `most` bytes, and no more than there is room for.
    fn give(&mut self, most: usize, room: &mut [u8]) -> usize
        ensures bound { result ≤ length room.new }
        ensures gave { Gave self.old self.new (take result room.new) }
        ensures waits { self.new.waits ≡ self.old.waits }
        ensures some { 0 < most → result ≡ 0 → 0 < length room.new → IsAtEnd self.new.remaining }
    {
        let left = &self.given[self.start..];
        let count = cmp::min(cmp::min(left.len(), room.len()), most);
        room[..count].copy_from_slice(&left[..count]);
        self.start += count;
        if count == most {
            self.piece = self.piece.saturating_add(1);
        }
        count
    }
}

// The place of the first piece from this one on that ends after this byte; none has it where there is no such.
fn first_with_bytes(ends: &[usize], from: usize, start: usize) -> usize {
    for at in from..ends.len() {
        match ends.get(at) {
            Some(end) if *end > start => return at,
            _ => {}
        }
    }
    ends.len()
}

impl Wire for MemoryWire {
    ghost line = { λ w. w };

    fn recv_now(&mut self, room: &mut [u8]) -> Result<Received, WireFault> {
        if self.counts() {
            return Err(WireFault);
        }
        if self.is_at_end() {
            return Ok(Received::End);
        }
        let most = self.left_of_piece();
        let count = self.give(most, room);
        if count > 0 || room.is_empty() {
            return Ok(Received::Bytes(count));
        }
        self.idle = one_more(self.idle);
        Ok(Received::Nothing)
    }

    fn recv_wait(&mut self, room: &mut [u8]) -> Result<usize, WireFault> {
        self.waits = one_more(self.waits);
        if self.counts() {
            return Err(WireFault);
        }
        self.piece = first_with_bytes(&self.ends, self.piece, self.start);
        let most = cmp::max(self.left_of_piece(), 1);
        Ok(self.give(most, room))
    }

    fn send(&mut self, piece: &[u8]) -> Result<usize, WireFault> {
        if self.counts() {
            return Err(WireFault);
        }
        let count = cmp::min(piece.len(), cmp::max(self.habits.most, 1));
        if self.taken.extend_from_slice(&piece[..count]).is_err() {
            self.faults = one_more(self.faults);
            return Err(WireFault);
        }
        Ok(count)
    }

    fn can_poll(&self) -> bool {
        self.habits.polls
    }

    fn faults(&self) -> u64 {
        self.faults
    }

    fn idle(&self) -> u64 {
        self.idle
    }

    fn waits(&self) -> u64 {
        self.waits
    }
}

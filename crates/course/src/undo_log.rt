//! What undoes the last moves.

ghost use Rattle.std.specs.Prelude.{◌≡◌, ◌<◌, ◌≤◌, [], drop, length, slice_get, vec_capacity, IfOk};
ghost use Rattle.course.specs.Private.Moves.{Amends, HandsOn, Puts, TakesBack, moves_of, placed, with_called, with_move};

use crate::calls::Called;
use crate::moves::Move;
use circular_buffer::HeapCircularBuffer;
use std::alloc::{AllocError, Global};
use std::marker::Model;

/// How many moves are recorded at most.
const RECORDED: usize = 65_536;

/// How many are put down before they are handed on together.
const GATHERED: usize = 256;

/// What undoes the last moves, 65,536 at most. A contract sees those that were handed on, and those after them.
///
/// A move is put down behind the newest ones before it is made, as far as it is known then, and taken back if it is not made after all.
/// The newest ones are handed on to the ring when they are many: so to record a move costs no more than to push it.
#[derive(Drop)]
pub(crate) struct UndoLog {
    /// The moves that were handed on, the oldest first.
    ring: HeapCircularBuffer<Move>,
    /// The moves after these, the oldest first. All the room for both is made at the start.
    newest: Vec<Move>,
}

impl Model for UndoLog {
    ghost use Rattle.std.specs.Prelude.{◌≡◌, ◌≤◌, length, vec_capacity};
    ghost use Rattle.course.specs.Private.Moves.{Log};

    ghost Value = { Log };

    ghost view = { λ l. record { ring = l.ring.items; newest = l.newest.items } };

    ghost invariant = { λ l. (l.ring.capacity ≡ 65536)
        × (length l.ring.items ≤ 65536) × (256 ≤ vec_capacity l.newest) };
}

impl UndoLog {
    /// A log in which no move is. It takes all the memory that it will ever need. `Err`: no memory was left.
    pub fn new(alloc: Global) -> Result<UndoLog, AllocError>
        ensures { IfOk result (λ log. moves_of log ≡ []) }
    {
        let ring = HeapCircularBuffer::with_capacity(alloc, RECORDED)?;
        let newest = Vec::with_capacity(alloc, GATHERED)?;
        Ok(UndoLog { ring, newest })
    }

    /// Records a move; of more than 65,536 the oldest is forgotten. It takes no memory.
    #[inline(always)]
    pub fn push(&mut self, made: Move)
        ensures puts { Puts made self.old self.new }
        ensures moves { moves_of self.new ≡ with_move made (moves_of self.old) }
    {
        make_room(&mut self.ring, &mut self.newest);
        self.newest.push_reserved(made);
    }

    /// Takes back the move that was just put down: it is not made after all.
    #[cold]
    #[inline(never)]
    pub fn take_back(&mut self)
        ensures { TakesBack self.old self.new }
    {
        self.newest.pop();
    }

    /// The move that was just put down stored at this address.
    #[inline(always)]
    pub fn place(&mut self, at: u32)
        requires { 1 ≤ length self.old.newest }
        ensures { Amends (placed at) self.old self.new }
    {
        let last = self.newest.len() - 1;
        self.newest[last].deed.at = at;
    }

    /// The move that was just put down did this to the calls.
    #[inline(always)]
    pub fn note(&mut self, called: Called)
        requires { 1 ≤ length self.old.newest }
        ensures { Amends (with_called called) self.old self.new }
    {
        let last = self.newest.len() - 1;
        self.newest[last].note(called);
    }

    /// The newest move, if there is one.
    pub fn newest(&mut self) -> Option<Move>
        ensures newest { result ≡ slice_get (moves_of self.old) 0 }
        ensures same { moves_of self.new ≡ moves_of self.old }
    {
        hand_on(&mut self.ring, &mut self.newest);
        self.ring.back().copied()
    }

    /// Forgets the newest move, if there is one.
    pub fn drop_newest(&mut self)
        ensures { moves_of self.new ≡ drop 1 (moves_of self.old) }
    {
        hand_on(&mut self.ring, &mut self.newest);
        self.ring.pop_back();
    }

    /// How many moves are recorded, 65,536 at most.
    pub fn len(&self) -> usize
        ensures len { result ≡ length (moves_of self.now) }
        ensures few { result ≤ 65536 }
    {
        (self.ring.len() + self.newest.as_slice().len()).min(RECORDED)
    }

    /// Forgets all moves.
    pub fn clear(&mut self)
        ensures { moves_of self.new ≡ [] }
    {
        self.ring.clear();
        self.newest.clear();
    }
}

// Makes room for a move behind the newest ones.
#[inline(always)]
fn make_room(ring: &mut HeapCircularBuffer<Move>, newest: &mut Vec<Move>)
    requires { ring.old.capacity ≡ 65536 }
    ensures ring { HandsOn ring.old newest.old.items ring.new newest.new.items }
    ensures room { vec_capacity newest.new ≡ vec_capacity newest.old }
    ensures few { length newest.new.items < 256 }
{
    if newest.len() >= GATHERED {
        hand_on(ring, newest);
    }
}

// Hands the newest moves on to the ring, which keeps as many as it has room for.
#[inline(never)]
fn hand_on(ring: &mut HeapCircularBuffer<Move>, newest: &mut Vec<Move>)
    requires { ring.old.capacity ≡ 65536 }
    ensures ring { HandsOn ring.old newest.old.items ring.new newest.new.items }
    ensures newest { newest.new.items ≡ [] }
    ensures room { vec_capacity newest.new ≡ vec_capacity newest.old }
{
    ring.extend_from_slice(newest.as_slice());
    newest.clear();
}

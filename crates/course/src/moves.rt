//! What is kept of a move, so that it can be undone: 16 bytes, since it is written in each move.

ghost use Rattle.std.specs.Prelude.{◌≡◌};
ghost use Rattle.course.specs.Private.Moves.{called_in, kept_of_pc, undo_in, with_called};
ghost use Rattle.course.specs.Private.Words.{deed_of, kind_of};

use crate::calls::Called;
use rv32i::{Instr, Reg, Undo, destination};

/// What undoes a move.
#[derive(Clone, Copy)]
pub(crate) struct Move {
    /// The address of the instruction.
    pub pc: u32,
    /// The value that the register had; of a store the bytes that were there, the first one lowest.
    pub was: u32,
    /// What it did.
    pub deed: Deed,
}

/// What a move did: all that is known of it beside the instruction's address and what was written over.
#[derive(Clone, Copy)]
pub(crate) struct Deed {
    /// Where it stored; of a call or a return the call that is kept no longer.
    pub at: u32,
    /// The register that it wrote; x0 where it wrote none.
    pub register: Reg,
    /// What it did beside.
    pub kind: Kind,
}

/// What a move did beside writing a register: a store of some bytes, or what it did to the calls.
#[derive(Clone, Copy)]
pub(crate) enum Kind {
    Nothing,
    StoredByte,
    StoredHalf,
    StoredWord,
    Pushed,
    PushedOut,
    Popped,
    PoppedFrom,
    Swapped,
    SwappedFrom,
}

impl Deed {
    /// What an instruction will have done, as far as it is known before: not where it stores, nor what it does to the calls.
    pub fn of(instr: &Instr) -> Deed
        ensures { result ≡ deed_of instr.now }
    {
        Deed {
            at: 0,
            register: destination(instr),
            kind: Kind::of(instr),
        }
    }
}

impl Move {
    /// Of an instruction at an address that changes pc alone.
    pub fn of_pc(pc: u32) -> Move
        ensures { result ≡ kept_of_pc pc }
    {
        Move {
            pc,
            was: 0,
            deed: Deed {
                at: 0,
                register: Reg::new(0),
                kind: Kind::Nothing,
            },
        }
    }

    /// It did this to the calls.
    #[inline(always)]
    pub fn note(&mut self, called: Called)
        ensures { self.new ≡ with_called called self.old }
    {
        let (kind, at) = match called {
            Called::Nothing => return,
            Called::Pushed => (Kind::Pushed, 0),
            Called::PushedOut(oldest) => (Kind::PushedOut, oldest),
            Called::Popped => (Kind::Popped, 0),
            Called::PoppedFrom(newest) => (Kind::PoppedFrom, newest),
            Called::Swapped => (Kind::Swapped, 0),
            Called::SwappedFrom(newest) => (Kind::SwappedFrom, newest),
        };
        self.deed.kind = kind;
        self.deed.at = at;
    }

    /// What undoes it of the hart and of memory.
    pub fn undo(&self) -> Undo
        ensures { result ≡ undo_in self.now }
    {
        let (address, count) = match self.deed.kind {
            Kind::StoredByte => (self.deed.at, 1),
            Kind::StoredHalf => (self.deed.at, 2),
            Kind::StoredWord => (self.deed.at, 4),
            _ => (0, 0),
        };
        Undo {
            pc: self.pc,
            value: self.was,
            address,
            bytes: self.was.to_le_bytes(),
            register: self.deed.register,
            count,
        }
    }

    /// What it did to the calls.
    pub fn called(&self) -> Called
        ensures { result ≡ called_in self.now }
    {
        match self.deed.kind {
            Kind::Pushed => Called::Pushed,
            Kind::PushedOut => Called::PushedOut(self.deed.at),
            Kind::Popped => Called::Popped,
            Kind::PoppedFrom => Called::PoppedFrom(self.deed.at),
            Kind::Swapped => Called::Swapped,
            Kind::SwappedFrom => Called::SwappedFrom(self.deed.at),
            _ => Called::Nothing,
        }
    }
}

impl Kind {
    // Of an instruction, as far as it is known before.
    fn of(instr: &Instr) -> Kind
        ensures { result ≡ kind_of instr.now }
    {
        match instr {
            Instr::Sb { .. } => Kind::StoredByte,
            Instr::Sh { .. } => Kind::StoredHalf,
            Instr::Sw { .. } => Kind::StoredWord,
            _ => Kind::Nothing,
        }
    }
}

//! The calls of a running program.

ghost use Rattle.std.specs.Prelude.{◌≡◌, ◌-◌, ◌^◌, ◌<◌, ◌≤◌, ◌==◌, List, [], length, slice_get, IfOk};
ghost use Rattle.course.specs.Private.Moves.{CanBeKept, popped, pushed, swapped, unnoted};
ghost use Rattle.course.specs.Marks.{Retired, is_link, jalr_marks};
ghost use Rattle.course.specs.Marks.Mark.{Pop, Push};
ghost use Rattle.course.specs.Calls.{StandsFor, calls_of, depth_of, noted, nothing_kept, with_mark, with_marks, with_retired};

use circular_buffer::HeapCircularBuffer;
use rv32i::{Instr, Reg};
use std::alloc::{AllocError, Global};
use std::marker::Model;

/// How many calls are kept.
const KEPT: usize = 256;

/// The calls of a running program, which a debugger shows as its call stack. The program is the
/// instructions that retired since the start, each noted once. The registers of a jump say
/// whether it calls or returns (RISC-V Unprivileged ISA 20191213, section 2.5, table 2.1). A contract
/// sees the depth and the addresses of the calls kept, newest first.
#[derive(Drop)]
pub struct Calls {
    depth: u64,
    /// The addresses of the calls kept, newest first.
    addresses: HeapCircularBuffer<u32>,
}

impl Model for Calls {
    ghost use Rattle.std.specs.Prelude.{◌≡◌, ◌≤◌, length};
    ghost use Rattle.course.specs.Calls.{Kept};
    ghost use Rattle.course.specs.declared.calls.TheConstants.{KEPT};

    ghost Value = { Kept };

    ghost view = { λ c. record { depth = c.depth; calls = c.addresses.items } };

    ghost invariant = { λ c. (c.addresses.capacity ≡ KEPT)
        × (length c.addresses.items ≤ c.depth) × (length c.addresses.items ≤ 256) };
}

/// What an instruction did to the calls.
#[derive(Clone, Copy, PartialEq, Eq)]
pub(crate) enum Called {
    /// It neither called nor returned, or it returned where no call was open.
    Nothing,
    /// It called.
    Pushed,
    /// It called, and this call, the oldest, is kept no longer.
    PushedOut(u32),
    /// It returned from a call that was not kept.
    Popped,
    /// It returned from this call.
    PoppedFrom(u32),
    /// It returned from a call that was not kept, and called.
    Swapped,
    /// It returned from this call, and called.
    SwappedFrom(u32),
}

impl Called {
    // A call, by the one that is kept no longer.
    #[inline(always)]
    fn pushed(oldest: Option<u32>) -> Called
        ensures { result ≡ pushed oldest }
    {
        match oldest {
            Some(oldest) => Called::PushedOut(oldest),
            None => Called::Pushed,
        }
    }

    // A return from a call that was open, by what was kept of it.
    #[inline(always)]
    fn popped(newest: Option<u32>) -> Called
        ensures { result ≡ popped newest }
    {
        match newest {
            Some(newest) => Called::PoppedFrom(newest),
            None => Called::Popped,
        }
    }

    // The same, and a call.
    #[inline(always)]
    fn swapped(newest: Option<u32>) -> Called
        ensures { result ≡ swapped newest }
    {
        match newest {
            Some(newest) => Called::SwappedFrom(newest),
            None => Called::Swapped,
        }
    }
}

impl Calls {
    /// The calls of a program before its first instruction retires. It takes all the memory that it will
    /// ever need. `Err`: no memory was left.
    pub fn new(alloc: Global) -> Result<Calls, AllocError>
        ensures kept { IfOk result (λ calls. calls ≡ nothing_kept) }
        ensures past { IfOk result (λ calls. StandsFor calls []) }
    {
        let addresses = HeapCircularBuffer::with_capacity(alloc, KEPT)?;
        Ok(Calls {
            depth: 0,
            addresses,
        })
    }

    /// Forgets all calls, as if no instruction retired yet. It takes no memory.
    pub fn clear(&mut self)
        ensures kept { self.new ≡ nothing_kept }
        ensures past { StandsFor self.new [] }
    {
        self.depth = 0;
        self.addresses.clear();
    }

    /// Notes an instruction that retired, and its address: a call is kept, and a return takes away the
    /// newest one. A return at depth 0 does nothing. Of more than 256 calls the oldest are kept no longer;
    /// undoing such a call (`Course::go_back`) brings the oldest back. It takes no memory. The depth is
    /// below 2^64 - 1 before it.
    #[inline]
    pub fn note(&mut self, instr: &Instr, pc: u32)
        requires { self.old.depth < 2 ^ 64 - 1 }
        ensures kept { self.new ≡ noted self.old instr.now pc }
        ensures past { (retired : List Retired) → StandsFor self.old retired
            → StandsFor self.new (with_retired retired instr.now pc) }
    {
        match instr {
            Instr::Jal { .. } | Instr::Jalr { .. } => self.note_jump(instr, pc),
            _ => {}
        }
    }

    // Notes a jump. Most instructions are none, so this is kept out of the way of the others.
    #[inline(never)]
    fn note_jump(&mut self, instr: &Instr, pc: u32)
        requires { self.old.depth < 2 ^ 64 - 1 }
        ensures { self.new ≡ noted self.old instr.now pc }
    {
        match *instr {
            Instr::Jal { rd, .. } if is_link(rd) => {
                self.push(pc);
            }
            Instr::Jalr { rd, rs1, .. } => self.note_jalr(rd, rs1, pc),
            _ => {}
        }
    }

    // Notes a JALR.
    fn note_jalr(&mut self, rd: Reg, rs1: Reg, pc: u32)
        requires { self.old.depth < 2 ^ 64 - 1 }
        ensures { self.new ≡ with_marks self.old
            (jalr_marks (is_link rd) (is_link rs1) (rd == rs1) pc) }
    {
        match (is_link(rd), is_link(rs1)) {
            (false, false) => {}
            (false, true) => {
                self.pop();
            }
            (true, true) if rd != rs1 => {
                self.swap(pc);
            }
            _ => {
                self.push(pc);
            }
        }
    }

    /// Notes a call from an address, and answers what undoes that.
    #[inline(always)]
    pub(crate) fn push(&mut self, pc: u32) -> Called
        requires { self.old.depth < 2 ^ 64 - 1 }
        ensures mark { self.new ≡ with_mark self.old (Push pc) }
        ensures back { unnoted result self.new ≡ self.old }
    {
        self.depth += 1;
        Called::pushed(self.addresses.push_front(pc))
    }

    /// Notes a return, and answers what undoes that.
    #[inline(always)]
    pub(crate) fn pop(&mut self) -> Called
        ensures mark { self.new ≡ with_mark self.old Pop }
        ensures back { unnoted result self.new ≡ self.old }
    {
        if self.depth == 0 {
            return Called::Nothing;
        }
        self.depth -= 1;
        Called::popped(self.addresses.pop_front())
    }

    /// Notes a return, and a call from an address, and answers what undoes both.
    #[inline(always)]
    pub(crate) fn swap(&mut self, pc: u32) -> Called
        requires { self.old.depth < 2 ^ 64 - 1 }
        ensures marks { self.new ≡ with_mark (with_mark self.old Pop) (Push pc) }
        ensures back { unnoted result self.new ≡ self.old }
    {
        if self.depth == 0 {
            return self.push(pc);
        }
        let returned = self.addresses.pop_front();
        self.addresses.push_front(pc);
        Called::swapped(returned)
    }

    /// Undoes what was noted.
    pub(crate) fn unnote(&mut self, called: &Called)
        requires { CanBeKept (unnoted called.now self.old) }
        ensures { self.new ≡ unnoted called.now self.old }
    {
        match *called {
            Called::Nothing => {}
            Called::Pushed => {
                self.depth = self.depth.saturating_sub(1);
                self.addresses.pop_front();
            }
            Called::PushedOut(oldest) => {
                self.depth = self.depth.saturating_sub(1);
                self.addresses.pop_front();
                self.addresses.push_back(oldest);
            }
            Called::Popped => self.depth += 1,
            Called::PoppedFrom(newest) => {
                self.depth += 1;
                self.addresses.push_front(newest);
            }
            Called::Swapped => {
                self.addresses.pop_front();
            }
            Called::SwappedFrom(newest) => {
                self.addresses.pop_front();
                self.addresses.push_front(newest);
            }
        }
    }

    /// How many calls have not returned, kept or not.
    #[inline]
    pub fn depth(&self) -> u64
        ensures kept { result ≡ self.now.depth }
        ensures past { (retired : List Retired) → StandsFor self.now retired
            → result ≡ depth_of retired }
    {
        self.depth
    }

    /// How many calls are kept, 256 at most.
    #[inline]
    pub fn kept(&self) -> usize
        ensures kept { result ≡ length self.now.calls }
        ensures within_limit { result ≤ 256 }
        ensures within_depth { result ≤ self.now.depth }
        ensures past { (retired : List Retired) → StandsFor self.now retired
            → result ≡ length (calls_of retired) }
    {
        self.addresses.len()
    }

    /// The address of the instruction that made a call that is kept, counted from the newest, which is
    /// number 0; `None` from `kept` on.
    #[inline]
    pub fn entry(&self, k: usize) -> Option<u32>
        ensures kept { result ≡ slice_get self.now.calls k }
        ensures past { (retired : List Retired) → StandsFor self.now retired
            → result ≡ slice_get (calls_of retired) k }
    {
        self.addresses.get(k).copied()
    }
}

/// Whether a register is one that holds a return address.
pub(crate) fn is_link(register: Reg) -> bool
    ensures { result ≡ is_link register }
{
    matches!(register.number(), 1 | 5)
}

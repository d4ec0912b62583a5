//! A word that is remembered decoded.

ghost use Rattle.std.specs.Prelude.{◌≡◌, slice_index, true};
ghost use Rattle.rv32i.specs.Machine.{sum};
ghost use Rattle.rv32i.specs.Undoing.{stored};
ghost use Rattle.course.specs.Private.Moves.{AreOver, IsOver};
ghost use Rattle.course.specs.Private.Words.{Knows, entry_of, is_plain, pops_in, pushes_in, stored_at, stores_in};

use crate::calls::is_link;
use crate::moves::Deed;
use image::Memory;
use rv32i::{Imm, Instr, Reg, undo_at};

/// A word that is remembered decoded, with what is asked of it after each move. It names its own
/// address: the words of other pages have the same place.
#[derive(Clone, Copy)]
pub(crate) struct Entry {
    pub pc: u32,
    /// Whether it changes registers and pc alone, as most instructions do: it doesn't store, nor does it
    /// leave marks on the calls. So these need one test.
    pub is_plain: bool,
    /// Whether it stores.
    pub stores: bool,
    /// Whether it returns, and whether it calls; it may do both, in this order.
    pub pops: bool,
    pub pushes: bool,
    /// What it will have done, as far as it is known before.
    pub deed: Deed,
    pub instr: Instr,
}

/// The entry of an instruction at an address.
pub(crate) fn entry_of(pc: u32, instr: Instr) -> Entry
    ensures { result ≡ entry_of pc instr }
{
    Entry {
        pc,
        is_plain: is_plain(&instr),
        stores: stores(&instr),
        pops: pops(&instr),
        pushes: pushes(&instr),
        deed: Deed::of(&instr),
        instr,
    }
}

// Whether an instruction stores.
fn stores(instr: &Instr) -> bool
    ensures { result ≡ stores_in instr.now }
{
    matches!(
        instr,
        Instr::Sb { .. } | Instr::Sh { .. } | Instr::Sw { .. }
    )
}

// Whether an instruction returns, by its marks.
fn pops(instr: &Instr) -> bool
    ensures { result ≡ pops_in instr.now }
{
    match *instr {
        Instr::Jalr { rd, rs1, .. } => is_link(rs1) && !(is_link(rd) && rd == rs1),
        _ => false,
    }
}

// Whether an instruction calls, by its marks.
fn pushes(instr: &Instr) -> bool
    ensures { result ≡ pushes_in instr.now }
{
    match *instr {
        Instr::Jal { rd, .. } => is_link(rd),
        Instr::Jalr { rd, .. } => is_link(rd),
        _ => false,
    }
}

// Whether an instruction changes registers and pc alone: it neither stores nor calls nor returns.
fn is_plain(instr: &Instr) -> bool
    ensures { result ≡ is_plain instr.now }
{
    match *instr {
        Instr::Sb { .. } | Instr::Sh { .. } | Instr::Sw { .. } => false,
        Instr::Jal { rd, .. } => !is_link(rd),
        Instr::Jalr { rd, rs1, .. } => !is_link(rd) && !is_link(rs1),
        _ => true,
    }
}

impl Entry {
    /// What the instruction writes over: the value of its register, or the bytes that are there, the first one lowest; where it
    /// traps, anything.
    #[inline(always)]
    pub fn overwritten(&self, x: &[u32; 32], memory: &Memory) -> u32
        requires { Knows memory.now self.now }
        ensures { IsOver result self.now.instr x.now memory.now }
    {
        if self.stores {
            return u32::from_le_bytes(four_over(x, &self.instr, memory));
        }
        x[self.deed.register.number()]
    }
}

// The bytes over which an instruction stores: only as many count as it stores; where it traps,
// anything. Most stores are of words.
#[inline(always)]
fn four_over(x: &[u32; 32], instr: &Instr, memory: &Memory) -> [u8; 4]
    ensures { AreOver result (stored instr.now x.now).address (stored instr.now x.now).count memory.now }
{
    match *instr {
        Instr::Sw { rs1, imm, .. } => word_over(memory, address(x, rs1, imm)),
        _ => few_over(x, instr, memory),
    }
}

// The same, of any instruction, kept out of the way of stores of words.
#[inline(never)]
fn few_over(x: &[u32; 32], instr: &Instr, memory: &Memory) -> [u8; 4]
    ensures { AreOver result (stored instr.now x.now).address (stored instr.now x.now).count memory.now }
{
    undo_at(x, 0, instr, memory).bytes
}

// The bytes of the word at an address, where it can be stored to.
#[inline(always)]
fn word_over(memory: &Memory, at: u32) -> [u8; 4]
    ensures { AreOver result at 4 memory.now }
{
    match memory.word_bytes(at) {
        Ok(bytes) => bytes,
        Err(_) => [0; 4],
    }
}

/// Where an instruction stores; 0 where it doesn't.
#[inline(always)]
pub(crate) fn stored_at(x: &[u32; 32], instr: &Instr) -> u32
    ensures { result ≡ stored_at instr.now x.now }
{
    match *instr {
        Instr::Sb { rs1, imm, .. } | Instr::Sh { rs1, imm, .. } | Instr::Sw { rs1, imm, .. } => {
            address(x, rs1, imm)
        }
        _ => 0,
    }
}

#[inline(always)]
fn address(x: &[u32; 32], base: Reg, imm: Imm) -> u32
    ensures { result ≡ sum (slice_index x.now base) imm }
{
    x[base.number()].wrapping_add(imm.bits())
}

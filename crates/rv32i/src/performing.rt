//! What each instruction does (RISC-V Unprivileged ISA 20191213, chapter 2).

ghost use Rattle.std.specs.Prelude.{◌≡◌, slice_index, if◌then◌else◌};
ghost use Rattle.rv32i.specs.Machine.{flag, is_less_than, places, shifted_right_signed, sum, with_register};
ghost use Rattle.rv32i.specs.Steps.{keeps, links, target_of, Performs};

use crate::Instr;
use crate::access::{
    load_byte, load_half, load_i8, load_i16, load_word, store_byte, store_half, store_word,
};
use crate::fields::{Imm, Reg};
use crate::stepped::Cause;
use image::Memory;

/// Why an instruction has no next one.
#[derive(Clone, Copy, Debug, PartialEq, Eq)]
pub enum Halt {
    /// It traps.
    Stopped(Cause),
    /// It stores into a page of zeros, and no memory was left for that.
    NoMemory,
    /// It is ECALL, and was not carried out.
    Calls,
    /// It is EBREAK, and was not carried out.
    Breaks,
}

/// The value of a register.
#[inline]
pub(crate) fn read(x: &[u32; 32], reg: Reg) -> u32
    ensures { result ≡ slice_index x.now reg }
{
    x[reg.number()]
}

// Puts a value into a register, and answers the next pc. x0 keeps its 0.
#[inline]
fn put(value: u32, reg: Reg, x: &mut [u32; 32], next: u32) -> Result<u32, Halt>
    requires { slice_index x.old 0 ≡ 0 }
    ensures next { result ≡ Ok next }
    ensures changes { x.new ≡ with_register reg value x.old }
    ensures zero { slice_index x.new 0 ≡ 0 }
{
    x[reg.number()] = value;
    x[0] = 0;
    Ok(next)
}

// Puts what was loaded into a register, or answers why nothing was.
#[inline]
fn keep(loaded: Result<u32, Halt>, reg: Reg, x: &mut [u32; 32], next: u32) -> Result<u32, Halt>
    requires { slice_index x.old 0 ≡ 0 }
    ensures keeps { keeps loaded reg next x.old result x.new }
    ensures zero { slice_index x.new 0 ≡ 0 }
{
    match loaded {
        Ok(value) => put(value, reg, x, next),
        Err(halt) => Err(halt),
    }
}

// Where a jump goes, or the trap where that is no multiple of 4.
#[inline]
fn aligned(target: u32) -> Result<u32, Halt>
    ensures { result ≡ target_of target }
{
    if target % 4 == 0 {
        Ok(target)
    } else {
        Err(Halt::Stopped(Cause::JumpMisaligned))
    }
}

// Where a branch goes.
#[inline]
fn branch(taken: bool, pc: u32, offset: u32) -> Result<u32, Halt>
    ensures { result ≡ (if taken then target_of (sum pc offset) else Ok (sum pc 4)) }
{
    if taken {
        aligned(pc.wrapping_add(offset))
    } else {
        Ok(pc.wrapping_add(4))
    }
}

// Jumps, with the address of the following instruction in a register.
#[inline]
fn linked_jump(target: u32, reg: Reg, x: &mut [u32; 32], next: u32) -> Result<u32, Halt>
    requires { slice_index x.old 0 ≡ 0 }
    ensures links { links target reg next x.old result x.new }
    ensures zero { slice_index x.new 0 ≡ 0 }
{
    let target = aligned(target)?;
    put(next, reg, x, target)
}

/// Does to the registers and to memory what the instruction at an address says, and answers the address
/// of the next one; x0 is 0 before and after. `Err`: there is none, and nothing has changed: it traps, or
/// finds no memory for a page of zeros into which it stores, or is ECALL or EBREAK, which
/// `Hart::settle` carries out.
#[inline(always)]
pub fn perform(x: &mut [u32; 32], pc: u32, instr: &Instr, memory: &mut Memory) -> Result<u32, Halt>
    requires { slice_index x.old 0 ≡ 0 }
    ensures performs { Performs instr.now
        (record { pc = pc; x = x.old; memory = memory.old }) result x.new memory.new }
    ensures zero { slice_index x.new 0 ≡ 0 }
{
    let next = pc.wrapping_add(4);
    match *instr {
        Instr::Lui { rd, imm } => put(imm.bits(), rd, x, next),
        Instr::Auipc { rd, imm } => put(pc.wrapping_add(imm.bits()), rd, x, next),
        Instr::Jal { rd, offset } => linked_jump(pc.wrapping_add(offset.bits()), rd, x, next),
        Instr::Jalr { rd, rs1, imm } => linked_jump(address(x, rs1, imm) / 2 * 2, rd, x, next),
        Instr::Beq { rs1, rs2, offset } => branch(read(x, rs1) == read(x, rs2), pc, offset.bits()),
        Instr::Bne { rs1, rs2, offset } => branch(read(x, rs1) != read(x, rs2), pc, offset.bits()),
        Instr::Blt { rs1, rs2, offset } => branch(
            is_less_than(read(x, rs1), read(x, rs2)),
            pc,
            offset.bits(),
        ),
        Instr::Bge { rs1, rs2, offset } => branch(
            !is_less_than(read(x, rs1), read(x, rs2)),
            pc,
            offset.bits(),
        ),
        Instr::Bltu { rs1, rs2, offset } => branch(read(x, rs1) < read(x, rs2), pc, offset.bits()),
        Instr::Bgeu { rs1, rs2, offset } => branch(read(x, rs1) >= read(x, rs2), pc, offset.bits()),
        Instr::Lb { rd, rs1, imm } => keep(load_i8(memory, address(x, rs1, imm)), rd, x, next),
        Instr::Lh { rd, rs1, imm } => keep(load_i16(memory, address(x, rs1, imm)), rd, x, next),
        Instr::Lw { rd, rs1, imm } => keep(load_word(memory, address(x, rs1, imm)), rd, x, next),
        Instr::Lbu { rd, rs1, imm } => keep(load_byte(memory, address(x, rs1, imm)), rd, x, next),
        Instr::Lhu { rd, rs1, imm } => keep(load_half(memory, address(x, rs1, imm)), rd, x, next),
        Instr::Sb { rs1, rs2, imm } => store_byte(memory, address(x, rs1, imm), read(x, rs2), next),
        Instr::Sh { rs1, rs2, imm } => store_half(memory, address(x, rs1, imm), read(x, rs2), next),
        Instr::Sw { rs1, rs2, imm } => store_word(memory, address(x, rs1, imm), read(x, rs2), next),
        Instr::Addi { rd, rs1, imm } => put(read(x, rs1).wrapping_add(imm.bits()), rd, x, next),
        Instr::Slti { rd, rs1, imm } => put(set_less_than(read(x, rs1), imm.bits()), rd, x, next),
        Instr::Sltiu { rd, rs1, imm } => put(flag(read(x, rs1) < imm.bits()), rd, x, next),
        Instr::Xori { rd, rs1, imm } => put(read(x, rs1) ^ imm.bits(), rd, x, next),
        Instr::Ori { rd, rs1, imm } => put(read(x, rs1) | imm.bits(), rd, x, next),
        Instr::Andi { rd, rs1, imm } => put(read(x, rs1) & imm.bits(), rd, x, next),
        Instr::Slli { rd, rs1, shamt } => put(read(x, rs1) << shamt.amount(), rd, x, next),
        Instr::Srli { rd, rs1, shamt } => put(read(x, rs1) >> shamt.amount(), rd, x, next),
        Instr::Srai { rd, rs1, shamt } => put(sra(read(x, rs1), shamt.amount()), rd, x, next),
        Instr::Add { rd, rs1, rs2 } => put(read(x, rs1).wrapping_add(read(x, rs2)), rd, x, next),
        Instr::Sub { rd, rs1, rs2 } => put(read(x, rs1).wrapping_sub(read(x, rs2)), rd, x, next),
        Instr::Sll { rd, rs1, rs2 } => put(read(x, rs1).wrapping_shl(read(x, rs2)), rd, x, next),
        Instr::Slt { rd, rs1, rs2 } => put(set_less_than(read(x, rs1), read(x, rs2)), rd, x, next),
        Instr::Sltu { rd, rs1, rs2 } => put(flag(read(x, rs1) < read(x, rs2)), rd, x, next),
        Instr::Xor { rd, rs1, rs2 } => put(read(x, rs1) ^ read(x, rs2), rd, x, next),
        Instr::Srl { rd, rs1, rs2 } => put(read(x, rs1).wrapping_shr(read(x, rs2)), rd, x, next),
        Instr::Sra { rd, rs1, rs2 } => put(sra(read(x, rs1), read(x, rs2)), rd, x, next),
        Instr::Or { rd, rs1, rs2 } => put(read(x, rs1) | read(x, rs2), rd, x, next),
        Instr::And { rd, rs1, rs2 } => put(read(x, rs1) & read(x, rs2), rd, x, next),
        Instr::Fence { .. } => Ok(next),
        Instr::Ecall => Err(Halt::Calls),
        Instr::Ebreak => Err(Halt::Breaks),
    }
}

// The address of a load or a store.
#[inline]
fn address(x: &[u32; 32], base: Reg, imm: Imm) -> u32
    ensures { result ≡ sum (slice_index x.now base) imm }
{
    read(x, base).wrapping_add(imm.bits())
}

// 1 for true, 0 for false.
#[inline]
fn flag(test: bool) -> u32
    ensures { result ≡ flag test }
{
    u32::from(test)
}

// Less than, as signed numbers.
#[inline]
fn is_less_than(a: u32, b: u32) -> bool
    ensures { result ≡ is_less_than a b }
{
    a.cast_signed() < b.cast_signed()
}

// 1 where a is less than b, as signed numbers; 0 where it is not.
#[inline]
fn set_less_than(a: u32, b: u32) -> u32
    ensures { result ≡ flag (is_less_than a b) }
{
    flag(is_less_than(a, b))
}

// Shifts right, copying the sign; the low 5 bits say how far.
#[inline]
fn sra(a: u32, by: u32) -> u32
    ensures { result ≡ shifted_right_signed a (places by) }
{
    a.cast_signed().wrapping_shr(by).cast_unsigned()
}

//! What is kept of a move, so that it can be undone.

ghost use Rattle.std.specs.Prelude.{◌≡◌, ◌≤◌, None, OnErr, OnOk, length, slice_index, take};
ghost use Rattle.image.specs.Memory.{NeedsPage, bytes_at, fault_at};
ghost use Rattle.rv32i.specs.Machine.{machine_of, sum, with_register, IsDecodedAtPc};
ghost use Rattle.rv32i.specs.Undoing.{undone, IsKept, Undoes};
ghost use Rattle.rv32i.specs.Undoing as spec;

use crate::fields::{Imm, Reg};
use crate::hart::Hart;
use crate::instr::Instr;
use crate::performing::read;
use image::{MemFault, Memory};
use std::alloc::AllocError;

/// What undoes a move: the address of its instruction, the register that it wrote, and the bytes over which it stored.
#[derive(Clone, Copy, Debug, PartialEq, Eq)]
pub struct Undo {
    /// The address of the instruction.
    pub pc: u32,
    /// The value that the register had.
    pub value: u32,
    /// Where the instruction stored.
    pub address: u32,
    /// The bytes that were there; of these as many count as it stored.
    pub bytes: [u8; 4],
    /// The register that it wrote; x0 where it wrote none.
    pub register: Reg,
    /// How many bytes it stored.
    pub count: u8,
}

/// Where an instruction stores, and how many bytes.
#[derive(Clone, Copy, PartialEq, Eq)]
pub(crate) struct Place {
    pub address: u32,
    pub count: u8,
}

/// What undoes the move that comes next, if its instruction retires: `instr` is what `decode` makes of the word at pc. It takes no
/// memory.
#[tactic(auto, using(crate::proofs::Undoing::nothing_undoes))]
pub fn undo_of(hart: &Hart, memory: &Memory, instr: Option<Instr>) -> Undo
    requires { IsDecodedAtPc (machine_of hart.now memory.now) instr }
    ensures { Undoes result (machine_of hart.now memory.now) }
{
    match instr {
        Some(instr) => undo_at(&hart.x, hart.pc, &instr, memory),
        None => Undo::of_pc(hart.pc),
    }
}

/// What undoes the move of an instruction at an address, if it retires. It takes no memory.
pub fn undo_at(x: &[u32; 32], pc: u32, instr: &Instr, memory: &Memory) -> Undo
    ensures { IsKept instr.now (record { pc = pc; x = x.now; memory = memory.now }) result }
{
    let register = destination(instr);
    let stored = stored(x, instr);
    Undo {
        pc,
        value: read(x, register),
        address: stored.address,
        bytes: bytes_at(memory, stored.address, stored.count),
        register,
        count: stored.count,
    }
}

impl Undo {
    /// What undoes the move of an instruction at an address that changes pc alone.
    pub fn of_pc(pc: u32) -> Undo
        ensures pc { result.pc ≡ pc }
        ensures nothing { (result.register ≡ 0) × (result.address ≡ 0) × (result.count ≡ 0) }
    {
        Undo {
            pc,
            value: 0,
            address: 0,
            bytes: [0; 4],
            register: Reg::new(0),
            count: 0,
        }
    }

    /// How many bytes it puts back.
    pub fn stored(&self) -> usize
        ensures { result ≡ length (take self.now.count self.now.bytes) }
    {
        usize::from(self.count).min(4)
    }
}

/// The register that an instruction writes; x0 where it writes none.
pub fn destination(instr: &Instr) -> Reg
    ensures { result ≡ spec.destination instr.now }
{
    match *instr {
        Instr::Lui { rd, .. }
        | Instr::Auipc { rd, .. }
        | Instr::Jal { rd, .. }
        | Instr::Jalr { rd, .. }
        | Instr::Lb { rd, .. }
        | Instr::Lh { rd, .. }
        | Instr::Lw { rd, .. }
        | Instr::Lbu { rd, .. }
        | Instr::Lhu { rd, .. }
        | Instr::Addi { rd, .. }
        | Instr::Slti { rd, .. }
        | Instr::Sltiu { rd, .. }
        | Instr::Xori { rd, .. }
        | Instr::Ori { rd, .. }
        | Instr::Andi { rd, .. }
        | Instr::Slli { rd, .. }
        | Instr::Srli { rd, .. }
        | Instr::Srai { rd, .. }
        | Instr::Add { rd, .. }
        | Instr::Sub { rd, .. }
        | Instr::Sll { rd, .. }
        | Instr::Slt { rd, .. }
        | Instr::Sltu { rd, .. }
        | Instr::Xor { rd, .. }
        | Instr::Srl { rd, .. }
        | Instr::Sra { rd, .. }
        | Instr::Or { rd, .. }
        | Instr::And { rd, .. } => rd,
        _ => Reg::new(0),
    }
}

// Where an instruction stores, and how many bytes; none where it stores nothing.
fn stored(x: &[u32; 32], instr: &Instr) -> Place
    ensures place { result ≡ spec.stored instr.now x.now }
    ensures few { result.count ≤ 4 }
{
    match *instr {
        Instr::Sb { rs1, imm, .. } => stored_at(x, rs1, imm, 1),
        Instr::Sh { rs1, imm, .. } => stored_at(x, rs1, imm, 2),
        Instr::Sw { rs1, imm, .. } => stored_at(x, rs1, imm, 4),
        _ => Place {
            address: 0,
            count: 0,
        },
    }
}

fn stored_at(x: &[u32; 32], base: Reg, imm: Imm, count: u8) -> Place
    ensures { result ≡ record { address = sum (slice_index x.now base) imm; count = count } }
{
    Place {
        address: read(x, base).wrapping_add(imm.bits()),
        count,
    }
}

// The `count` bytes at an address, where these lie in memory.
fn bytes_at(memory: &Memory, address: u32, count: u8) -> [u8; 4]
    requires { count ≤ 4 }
    ensures { fault_at memory.now 1 address count ≡ None
        → take count result ≡ bytes_at memory.now address count }
{
    let mut bytes = [0; 4];
    let _ = memory.read(address, &mut bytes[..usize::from(count)]);
    bytes
}

impl Hart {
    /// Undoes a move: after a move that retired, hart and memory are as before it. `Err`: no memory was left, and all is as it was; the
    /// page of a store that was made is there, so this takes none after it.
    pub fn undo(&mut self, memory: &mut Memory, undo: &Undo) -> Result<(), AllocError>
        ensures ok { OnOk result (machine_of self.new memory.new
            ≡ undone undo.now (machine_of self.old memory.old)) }
        ensures err { OnErr result ((self.new ≡ self.old) × (memory.new ≡ memory.old)) }
        ensures lacks { OnErr result (NeedsPage 1 memory.old undo.now.address
            (length (take undo.now.count undo.now.bytes))) }
    {
        let bytes = &undo.bytes[..undo.stored()];
        if let Err(MemFault::NoMemory) = memory.write(undo.address, bytes) {
            return Err(AllocError);
        }
        put_back(undo.value, undo.register, &mut self.x);
        self.pc = undo.pc;
        Ok(())
    }
}

// Puts a value into a register. x0 keeps its 0.
fn put_back(value: u32, register: Reg, x: &mut [u32; 32])
    requires { slice_index x.old 0 ≡ 0 }
    ensures changes { x.new ≡ with_register register value x.old }
    ensures zero { slice_index x.new 0 ≡ 0 }
{
    x[register.number()] = value;
    x[0] = 0;
}

//! An instruction to its word.

ghost use Rattle.std.specs.Prelude.{◌≡◌, ℕ, ◌+◌, ◌*◌, ◌^◌, ◌<◌};
ghost use Rattle.rv32i.specs.Encoding.{Encodes};
ghost use Rattle.rv32i.specs.Formats.{BType, FenceType, IType, JType, RType, SType, UType};

use crate::Instr;
use crate::fields::{BranchOffset, FenceSet, Imm, JumpOffset, Reg, Shamt, Upper};

/// The word that encodes an instruction (RISC-V Unprivileged ISA 20191213, chapter 24, "RV32I Base
/// Instruction Set"). It is the only one, so the word of what a word decodes to is that word.
#[tactic(auto, using(crate::proofs::Unique::one_word))]
pub fn encode(instr: Instr) -> u32
    ensures encodes { Encodes instr result }
    ensures unique { (word : ℕ) → Encodes instr word → result ≡ word }
{
    match instr {
        Instr::Lui { rd, imm } => u_word(0b011_0111, rd, imm),
        Instr::Auipc { rd, imm } => u_word(0b001_0111, rd, imm),
        Instr::Jal { rd, offset } => j_word(0b110_1111, rd, offset),
        Instr::Jalr { rd, rs1, imm } => i_word(0b110_0111, 0b000, rd, rs1, imm),
        Instr::Beq { rs1, rs2, offset } => b_word(0b000, rs1, rs2, offset),
        Instr::Bne { rs1, rs2, offset } => b_word(0b001, rs1, rs2, offset),
        Instr::Blt { rs1, rs2, offset } => b_word(0b100, rs1, rs2, offset),
        Instr::Bge { rs1, rs2, offset } => b_word(0b101, rs1, rs2, offset),
        Instr::Bltu { rs1, rs2, offset } => b_word(0b110, rs1, rs2, offset),
        Instr::Bgeu { rs1, rs2, offset } => b_word(0b111, rs1, rs2, offset),
        Instr::Lb { rd, rs1, imm } => i_word(0b000_0011, 0b000, rd, rs1, imm),
        Instr::Lh { rd, rs1, imm } => i_word(0b000_0011, 0b001, rd, rs1, imm),
        Instr::Lw { rd, rs1, imm } => i_word(0b000_0011, 0b010, rd, rs1, imm),
        Instr::Lbu { rd, rs1, imm } => i_word(0b000_0011, 0b100, rd, rs1, imm),
        Instr::Lhu { rd, rs1, imm } => i_word(0b000_0011, 0b101, rd, rs1, imm),
        Instr::Sb { rs1, rs2, imm } => s_word(0b000, rs1, rs2, imm),
        Instr::Sh { rs1, rs2, imm } => s_word(0b001, rs1, rs2, imm),
        Instr::Sw { rs1, rs2, imm } => s_word(0b010, rs1, rs2, imm),
        Instr::Addi { rd, rs1, imm } => i_word(0b001_0011, 0b000, rd, rs1, imm),
        Instr::Slti { rd, rs1, imm } => i_word(0b001_0011, 0b010, rd, rs1, imm),
        Instr::Sltiu { rd, rs1, imm } => i_word(0b001_0011, 0b011, rd, rs1, imm),
        Instr::Xori { rd, rs1, imm } => i_word(0b001_0011, 0b100, rd, rs1, imm),
        Instr::Ori { rd, rs1, imm } => i_word(0b001_0011, 0b110, rd, rs1, imm),
        Instr::Andi { rd, rs1, imm } => i_word(0b001_0011, 0b111, rd, rs1, imm),
        Instr::Slli { rd, rs1, shamt } => shift_word(0b001, 0b000_0000, rd, rs1, shamt),
        Instr::Srli { rd, rs1, shamt } => shift_word(0b101, 0b000_0000, rd, rs1, shamt),
        Instr::Srai { rd, rs1, shamt } => shift_word(0b101, 0b010_0000, rd, rs1, shamt),
        Instr::Add { rd, rs1, rs2 } => r_word(0b000, 0b000_0000, rd, rs1, rs2),
        Instr::Sub { rd, rs1, rs2 } => r_word(0b000, 0b010_0000, rd, rs1, rs2),
        Instr::Sll { rd, rs1, rs2 } => r_word(0b001, 0b000_0000, rd, rs1, rs2),
        Instr::Slt { rd, rs1, rs2 } => r_word(0b010, 0b000_0000, rd, rs1, rs2),
        Instr::Sltu { rd, rs1, rs2 } => r_word(0b011, 0b000_0000, rd, rs1, rs2),
        Instr::Xor { rd, rs1, rs2 } => r_word(0b100, 0b000_0000, rd, rs1, rs2),
        Instr::Srl { rd, rs1, rs2 } => r_word(0b101, 0b000_0000, rd, rs1, rs2),
        Instr::Sra { rd, rs1, rs2 } => r_word(0b101, 0b010_0000, rd, rs1, rs2),
        Instr::Or { rd, rs1, rs2 } => r_word(0b110, 0b000_0000, rd, rs1, rs2),
        Instr::And { rd, rs1, rs2 } => r_word(0b111, 0b000_0000, rd, rs1, rs2),
        Instr::Fence {
            fm,
            before,
            after,
            rd,
            rs1,
        } => fence_word(fm, before, after, rd, rs1),
        Instr::Ecall => 0x0000_0073,
        Instr::Ebreak => 0x0010_0073,
    }
}

// A register's number in the word.
fn register(reg: Reg) -> u32
    ensures value { result ≡ reg }
    ensures within { result < 32 }
{
    reg.number() as u32
}

// funct3 14:12, rs1 19:15, and what bits 11:0 have.
fn middle(funct3: u32, rs1: Reg, low: u32) -> u32
    requires funct3 { funct3 < 8 }
    requires low { low < 4096 }
    ensures value { result ≡ rs1 * 2 ^ 15 + funct3 * 2 ^ 12 + low }
    ensures source { rs1 < 32 }
{
    register(rs1) * 0x8000 + funct3 * 0x1000 + low
}

// The format R with the opcode of two registers.
#[tactic(auto, using(crate::proofs::Sums::r_sum))]
fn r_word(funct3: u32, funct7: u32, rd: Reg, rs1: Reg, rs2: Reg) -> u32
    requires funct3 { funct3 < 8 }
    requires funct7 { funct7 < 128 }
    ensures { RType 0b0110011 funct3 funct7 rd rs1 rs2 result }
{
    funct7 * 0x200_0000
        + register(rs2) * 0x10_0000
        + middle(funct3, rs1, register(rd) * 0x80 + 0b011_0011)
}

// The format R with a shift amount in the place of rs2.
#[tactic(auto, using(crate::proofs::Sums::r_sum))]
fn shift_word(funct3: u32, high: u32, rd: Reg, rs1: Reg, shamt: Shamt) -> u32
    requires funct3 { funct3 < 8 }
    requires high { high < 128 }
    ensures { RType 0b0010011 funct3 high rd rs1 shamt result }
{
    high * 0x200_0000
        + shamt.amount() * 0x10_0000
        + middle(funct3, rs1, register(rd) * 0x80 + 0b001_0011)
}

#[tactic(auto, using(crate::proofs::Sums::i_sum))]
fn i_word(opcode: u32, funct3: u32, rd: Reg, rs1: Reg, imm: Imm) -> u32
    requires opcode { opcode < 128 }
    requires funct3 { funct3 < 8 }
    ensures { IType opcode funct3 rd rs1 imm result }
{
    imm.bits() % 0x1000 * 0x10_0000 + middle(funct3, rs1, register(rd) * 0x80 + opcode)
}

#[tactic(auto, using(crate::proofs::Sums::s_sum))]
fn s_word(funct3: u32, rs1: Reg, rs2: Reg, imm: Imm) -> u32
    requires { funct3 < 8 }
    ensures { SType 0b0100011 funct3 rs1 rs2 imm result }
{
    let bits = imm.bits();
    bits / 0x20 % 0x80 * 0x200_0000
        + register(rs2) * 0x10_0000
        + middle(funct3, rs1, bits % 0x20 * 0x80 + 0b010_0011)
}

#[tactic(auto, using(crate::proofs::Sums::b_sum))]
fn b_word(funct3: u32, rs1: Reg, rs2: Reg, offset: BranchOffset) -> u32
    requires { funct3 < 8 }
    ensures { BType 0b1100011 funct3 rs1 rs2 offset result }
{
    let bits = offset.bits();
    let high = bits / 0x8000_0000 * 0x8000_0000 + bits / 0x20 % 0x40 * 0x200_0000;
    let low = bits / 2 % 0x10 * 0x100 + bits / 0x800 % 2 * 0x80;
    high + register(rs2) * 0x10_0000 + middle(funct3, rs1, low + 0b110_0011)
}

#[tactic(auto, using(crate::proofs::Sums::u_sum))]
fn u_word(opcode: u32, rd: Reg, imm: Upper) -> u32
    requires { opcode < 128 }
    ensures { UType opcode rd imm result }
{
    imm.bits() + register(rd) * 0x80 + opcode
}

#[tactic(auto, using(crate::proofs::Sums::j_sum))]
fn j_word(opcode: u32, rd: Reg, offset: JumpOffset) -> u32
    requires { opcode < 128 }
    ensures { JType opcode rd offset result }
{
    let bits = offset.bits();
    let high = bits / 0x8000_0000 * 0x8000_0000 + bits / 2 % 0x400 * 0x20_0000;
    let low = bits / 0x800 % 2 * 0x10_0000 + bits / 0x1000 % 0x100 * 0x1000;
    high + low + register(rd) * 0x80 + opcode
}

#[tactic(auto, using(crate::proofs::Sums::fence_sum))]
fn fence_word(fm: FenceSet, before: FenceSet, after: FenceSet, rd: Reg, rs1: Reg) -> u32
    ensures { FenceType 0b0001111 0b000 fm before after rd rs1 result }
{
    let sets = fm.bits() * 0x1000_0000 + before.bits() * 0x100_0000 + after.bits() * 0x10_0000;
    sets + middle(0, rs1, register(rd) * 0x80 + 0b000_1111)
}

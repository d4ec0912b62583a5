//! A word to the instruction that it encodes.

ghost use Rattle.std.specs.Prelude.{◌≡◌, ◌/◌, ◌%◌, ◌^◌};
ghost use Rattle.rv32i.specs.Encoding.{IsDecoding};

use crate::{Instr, parts};

/// The instruction that a word encodes; `None`: the word is illegal (RISC-V Unprivileged ISA 20191213,
/// chapter 24, "RV32I Base Instruction Set").
#[inline(never)]
pub fn decode(word: u32) -> Option<Instr>
    ensures { IsDecoding word result }
{
    match parts::opcode(word) {
        0b011_0111 => Some(Instr::Lui {
            rd: parts::rd(word),
            imm: parts::immediate_u(word),
        }),
        0b001_0111 => Some(Instr::Auipc {
            rd: parts::rd(word),
            imm: parts::immediate_u(word),
        }),
        0b110_1111 => Some(Instr::Jal {
            rd: parts::rd(word),
            offset: parts::offset_j(word),
        }),
        0b110_0111 => jump_register(word),
        0b110_0011 => branch(word),
        0b000_0011 => load(word),
        0b010_0011 => store(word),
        0b001_0011 => with_immediate(word),
        0b011_0011 => with_register(word),
        0b000_1111 => fence(word),
        0b111_0011 => system(word),
        _ => None,
    }
}

// JALR.
#[inline]
fn jump_register(word: u32) -> Option<Instr>
    requires { word % 2 ^ 7 ≡ 0b1100111 }
    ensures { IsDecoding word result }
{
    match parts::funct3(word) {
        0b000 => Some(Instr::Jalr {
            rd: parts::rd(word),
            rs1: parts::rs1(word),
            imm: parts::immediate_i(word),
        }),
        _ => None,
    }
}

// The branches.
#[inline]
fn branch(word: u32) -> Option<Instr>
    requires { word % 2 ^ 7 ≡ 0b1100011 }
    ensures { IsDecoding word result }
{
    let rs1 = parts::rs1(word);
    let rs2 = parts::rs2(word);
    let offset = parts::offset_b(word);
    match parts::funct3(word) {
        0b000 => Some(Instr::Beq { rs1, rs2, offset }),
        0b001 => Some(Instr::Bne { rs1, rs2, offset }),
        0b100 => Some(Instr::Blt { rs1, rs2, offset }),
        0b101 => Some(Instr::Bge { rs1, rs2, offset }),
        0b110 => Some(Instr::Bltu { rs1, rs2, offset }),
        0b111 => Some(Instr::Bgeu { rs1, rs2, offset }),
        _ => None,
    }
}

// The loads.
#[inline]
fn load(word: u32) -> Option<Instr>
    requires { word % 2 ^ 7 ≡ 0b0000011 }
    ensures { IsDecoding word result }
{
    let rd = parts::rd(word);
    let rs1 = parts::rs1(word);
    let imm = parts::immediate_i(word);
    match parts::funct3(word) {
        0b000 => Some(Instr::Lb { rd, rs1, imm }),
        0b001 => Some(Instr::Lh { rd, rs1, imm }),
        0b010 => Some(Instr::Lw { rd, rs1, imm }),
        0b100 => Some(Instr::Lbu { rd, rs1, imm }),
        0b101 => Some(Instr::Lhu { rd, rs1, imm }),
        _ => None,
    }
}

// The stores.
#[inline]
fn store(word: u32) -> Option<Instr>
    requires { word % 2 ^ 7 ≡ 0b0100011 }
    ensures { IsDecoding word result }
{
    let rs1 = parts::rs1(word);
    let rs2 = parts::rs2(word);
    let imm = parts::immediate_s(word);
    match parts::funct3(word) {
        0b000 => Some(Instr::Sb { rs1, rs2, imm }),
        0b001 => Some(Instr::Sh { rs1, rs2, imm }),
        0b010 => Some(Instr::Sw { rs1, rs2, imm }),
        _ => None,
    }
}

// A register and an immediate.
#[inline]
fn with_immediate(word: u32) -> Option<Instr>
    requires { word % 2 ^ 7 ≡ 0b0010011 }
    ensures { IsDecoding word result }
{
    let rd = parts::rd(word);
    let rs1 = parts::rs1(word);
    let imm = parts::immediate_i(word);
    match parts::funct3(word) {
        0b000 => Some(Instr::Addi { rd, rs1, imm }),
        0b010 => Some(Instr::Slti { rd, rs1, imm }),
        0b011 => Some(Instr::Sltiu { rd, rs1, imm }),
        0b100 => Some(Instr::Xori { rd, rs1, imm }),
        0b110 => Some(Instr::Ori { rd, rs1, imm }),
        0b111 => Some(Instr::Andi { rd, rs1, imm }),
        0b001 => shift_left(word),
        0b101 => shift_right(word),
        _ => None,
    }
}

// SLLI.
#[inline]
fn shift_left(word: u32) -> Option<Instr>
    requires opcode { word % 2 ^ 7 ≡ 0b0010011 }
    requires funct3 { word / 2 ^ 12 % 2 ^ 3 ≡ 0b001 }
    ensures { IsDecoding word result }
{
    match parts::funct7(word) {
        0b000_0000 => Some(Instr::Slli {
            rd: parts::rd(word),
            rs1: parts::rs1(word),
            shamt: parts::shamt(word),
        }),
        _ => None,
    }
}

// SRLI and SRAI.
#[inline]
fn shift_right(word: u32) -> Option<Instr>
    requires opcode { word % 2 ^ 7 ≡ 0b0010011 }
    requires funct3 { word / 2 ^ 12 % 2 ^ 3 ≡ 0b101 }
    ensures { IsDecoding word result }
{
    match parts::funct7(word) {
        0b000_0000 => Some(Instr::Srli {
            rd: parts::rd(word),
            rs1: parts::rs1(word),
            shamt: parts::shamt(word),
        }),
        0b010_0000 => Some(Instr::Srai {
            rd: parts::rd(word),
            rs1: parts::rs1(word),
            shamt: parts::shamt(word),
        }),
        _ => None,
    }
}

// Two registers.
#[inline]
fn with_register(word: u32) -> Option<Instr>
    requires { word % 2 ^ 7 ≡ 0b0110011 }
    ensures { IsDecoding word result }
{
    match parts::funct7(word) {
        0b000_0000 => with_register_plain(word),
        0b010_0000 => with_register_other(word),
        _ => None,
    }
}

// Two registers, where funct7 is 0.
#[inline]
fn with_register_plain(word: u32) -> Option<Instr>
    requires opcode { word % 2 ^ 7 ≡ 0b0110011 }
    requires funct7 { word / 2 ^ 25 ≡ 0b0000000 }
    ensures { IsDecoding word result }
{
    let rd = parts::rd(word);
    let rs1 = parts::rs1(word);
    let rs2 = parts::rs2(word);
    match parts::funct3(word) {
        0b000 => Some(Instr::Add { rd, rs1, rs2 }),
        0b001 => Some(Instr::Sll { rd, rs1, rs2 }),
        0b010 => Some(Instr::Slt { rd, rs1, rs2 }),
        0b011 => Some(Instr::Sltu { rd, rs1, rs2 }),
        0b100 => Some(Instr::Xor { rd, rs1, rs2 }),
        0b101 => Some(Instr::Srl { rd, rs1, rs2 }),
        0b110 => Some(Instr::Or { rd, rs1, rs2 }),
        0b111 => Some(Instr::And { rd, rs1, rs2 }),
        _ => None,
    }
}

// SUB and SRA.
#[inline]
fn with_register_other(word: u32) -> Option<Instr>
    requires opcode { word % 2 ^ 7 ≡ 0b0110011 }
    requires funct7 { word / 2 ^ 25 ≡ 0b0100000 }
    ensures { IsDecoding word result }
{
    match parts::funct3(word) {
        0b000 => Some(Instr::Sub {
            rd: parts::rd(word),
            rs1: parts::rs1(word),
            rs2: parts::rs2(word),
        }),
        0b101 => Some(Instr::Sra {
            rd: parts::rd(word),
            rs1: parts::rs1(word),
            rs2: parts::rs2(word),
        }),
        _ => None,
    }
}

// FENCE.
#[inline]
fn fence(word: u32) -> Option<Instr>
    requires { word % 2 ^ 7 ≡ 0b0001111 }
    ensures { IsDecoding word result }
{
    match parts::funct3(word) {
        0b000 => Some(Instr::Fence {
            fm: parts::mode(word),
            before: parts::predecessors(word),
            after: parts::successors(word),
            rd: parts::rd(word),
            rs1: parts::rs1(word),
        }),
        _ => None,
    }
}

// ECALL and EBREAK, which have no fields.
#[inline]
fn system(word: u32) -> Option<Instr>
    requires { word % 2 ^ 7 ≡ 0b1110011 }
    ensures { IsDecoding word result }
{
    match word {
        0x0000_0073 => Some(Instr::Ecall),
        0x0010_0073 => Some(Instr::Ebreak),
        _ => None,
    }
}

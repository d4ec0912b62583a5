//! The disassembly of instructions.

ghost use Rattle.std.specs.Prelude.{◌≡◌, ◌+◌, ◌<◌, ◌≤◌, [], ◌∷◌, ◌++◌, codes, string_bytes, string_capacity, string_len, IfOk, OnErr, OnOk};
ghost use Rattle.rv32i.specs.Machine.{sum};
ghost use Rattle.rv32i.specs.Names.{name_of};
ghost use Rattle.rv32i.specs.Texts.{
  access_text,
  address_text,
  branch_text,
  eight_digits,
  hex_digit,
  immediate_text,
  jump_text,
  registers_text,
  set_text,
  shift_text,
  upper_text,
  with_three,
  with_two,
  HasText,
};

use crate::Instr;
use crate::encoding::encode;
use crate::fields::{BranchOffset, FenceSet, Imm, Reg, Shamt, Upper};
use crate::names::reg_name;
use std::alloc::{AllocError, Global};

/// The disassembly of an instruction at an address: the statement that means it. The targets of jumps
/// and branches are written as absolute addresses, `pc` and the offset, wrapping. A FENCE for which there
/// is no statement is written as its word, `.word 0x` and eight digits. `Err`: no memory was left.
pub fn text_of(alloc: Global, instr: Instr, pc: u32) -> Result<String, AllocError>
    ensures { IfOk result (λ text. HasText instr pc (string_bytes text)) }
{
    match instr {
        Instr::Lui { rd, imm } => upper_text(alloc, "lui", rd, imm),
        Instr::Auipc { rd, imm } => upper_text(alloc, "auipc", rd, imm),
        Instr::Jal { rd, offset } => jump_text(alloc, "jal", rd, pc.wrapping_add(offset.bits())),
        Instr::Jalr { rd, rs1, imm } => access_text(alloc, "jalr", rd, rs1, imm),
        Instr::Beq { rs1, rs2, offset } => branch_text(alloc, "beq", rs1, rs2, sum(pc, offset)),
        Instr::Bne { rs1, rs2, offset } => branch_text(alloc, "bne", rs1, rs2, sum(pc, offset)),
        Instr::Blt { rs1, rs2, offset } => branch_text(alloc, "blt", rs1, rs2, sum(pc, offset)),
        Instr::Bge { rs1, rs2, offset } => branch_text(alloc, "bge", rs1, rs2, sum(pc, offset)),
        Instr::Bltu { rs1, rs2, offset } => branch_text(alloc, "bltu", rs1, rs2, sum(pc, offset)),
        Instr::Bgeu { rs1, rs2, offset } => branch_text(alloc, "bgeu", rs1, rs2, sum(pc, offset)),
        Instr::Lb { rd, rs1, imm } => access_text(alloc, "lb", rd, rs1, imm),
        Instr::Lh { rd, rs1, imm } => access_text(alloc, "lh", rd, rs1, imm),
        Instr::Lw { rd, rs1, imm } => access_text(alloc, "lw", rd, rs1, imm),
        Instr::Lbu { rd, rs1, imm } => access_text(alloc, "lbu", rd, rs1, imm),
        Instr::Lhu { rd, rs1, imm } => access_text(alloc, "lhu", rd, rs1, imm),
        Instr::Sb { rs1, rs2, imm } => access_text(alloc, "sb", rs2, rs1, imm),
        Instr::Sh { rs1, rs2, imm } => access_text(alloc, "sh", rs2, rs1, imm),
        Instr::Sw { rs1, rs2, imm } => access_text(alloc, "sw", rs2, rs1, imm),
        Instr::Addi { rd, rs1, imm } => immediate_text(alloc, "addi", rd, rs1, imm),
        Instr::Slti { rd, rs1, imm } => immediate_text(alloc, "slti", rd, rs1, imm),
        Instr::Sltiu { rd, rs1, imm } => immediate_text(alloc, "sltiu", rd, rs1, imm),
        Instr::Xori { rd, rs1, imm } => immediate_text(alloc, "xori", rd, rs1, imm),
        Instr::Ori { rd, rs1, imm } => immediate_text(alloc, "ori", rd, rs1, imm),
        Instr::Andi { rd, rs1, imm } => immediate_text(alloc, "andi", rd, rs1, imm),
        Instr::Slli { rd, rs1, shamt } => shift_text(alloc, "slli", rd, rs1, shamt),
        Instr::Srli { rd, rs1, shamt } => shift_text(alloc, "srli", rd, rs1, shamt),
        Instr::Srai { rd, rs1, shamt } => shift_text(alloc, "srai", rd, rs1, shamt),
        Instr::Add { rd, rs1, rs2 } => registers_text(alloc, "add", rd, rs1, rs2),
        Instr::Sub { rd, rs1, rs2 } => registers_text(alloc, "sub", rd, rs1, rs2),
        Instr::Sll { rd, rs1, rs2 } => registers_text(alloc, "sll", rd, rs1, rs2),
        Instr::Slt { rd, rs1, rs2 } => registers_text(alloc, "slt", rd, rs1, rs2),
        Instr::Sltu { rd, rs1, rs2 } => registers_text(alloc, "sltu", rd, rs1, rs2),
        Instr::Xor { rd, rs1, rs2 } => registers_text(alloc, "xor", rd, rs1, rs2),
        Instr::Srl { rd, rs1, rs2 } => registers_text(alloc, "srl", rd, rs1, rs2),
        Instr::Sra { rd, rs1, rs2 } => registers_text(alloc, "sra", rd, rs1, rs2),
        Instr::Or { rd, rs1, rs2 } => registers_text(alloc, "or", rd, rs1, rs2),
        Instr::And { rd, rs1, rs2 } => registers_text(alloc, "and", rd, rs1, rs2),
        Instr::Fence {
            fm,
            before,
            after,
            rd,
            rs1,
        } => fence(alloc, fm, before, after, rd, rs1),
        Instr::Ecall => String::from_str(alloc, "ecall"),
        Instr::Ebreak => String::from_str(alloc, "ebreak"),
    }
}

// The target of a branch: pc and its offset, wrapping.
fn sum(pc: u32, offset: BranchOffset) -> u32
    ensures { result ≡ sum pc offset }
{
    pc.wrapping_add(offset.bits())
}

// The name of a register.
fn name(reg: Reg) -> &'static str
    ensures { result.now ≡ name_of reg }
{
    reg_name(reg.number() as u32)
}

// Three registers.
fn registers_text(
    alloc: Global,
    mnemonic: &str,
    rd: Reg,
    rs1: Reg,
    rs2: Reg,
) -> Result<String, AllocError>
    ensures { IfOk result (λ text. string_bytes text ≡ registers_text mnemonic.now rd rs1 rs2) }
{
    with_three(alloc, mnemonic, name(rd), name(rs1), name(rs2))
}

// Two registers and an immediate.
fn immediate_text(
    alloc: Global,
    mnemonic: &str,
    rd: Reg,
    rs1: Reg,
    imm: Imm,
) -> Result<String, AllocError>
    ensures { IfOk result (λ text. string_bytes text ≡ immediate_text mnemonic.now rd rs1 imm) }
{
    let (rd, rs1, imm) = (name(rd), name(rs1), imm.bits().cast_signed());
    format!(in alloc; "{mnemonic} {rd}, {rs1}, {imm}")
}

// Two registers and a shift amount.
fn shift_text(
    alloc: Global,
    mnemonic: &str,
    rd: Reg,
    rs1: Reg,
    shamt: Shamt,
) -> Result<String, AllocError>
    ensures { IfOk result (λ text. string_bytes text ≡ shift_text mnemonic.now rd rs1 shamt) }
{
    let (rd, rs1, shamt) = (name(rd), name(rs1), shamt.amount());
    format!(in alloc; "{mnemonic} {rd}, {rs1}, {shamt}")
}

// A register, and an address as a register and an immediate.
fn access_text(
    alloc: Global,
    mnemonic: &str,
    reg: Reg,
    base: Reg,
    imm: Imm,
) -> Result<String, AllocError>
    ensures { IfOk result (λ text. string_bytes text ≡ access_text mnemonic.now reg base imm) }
{
    let (reg, base, imm) = (name(reg), name(base), imm.bits().cast_signed());
    format!(in alloc; "{mnemonic} {reg}, {imm}({base})")
}

// A register and the upper 20 bits.
fn upper_text(alloc: Global, mnemonic: &str, rd: Reg, imm: Upper) -> Result<String, AllocError>
    ensures { IfOk result (λ text. string_bytes text ≡ upper_text mnemonic.now rd imm) }
{
    let (rd, imm) = (name(rd), imm.bits() / 4096);
    format!(in alloc; "{mnemonic} {rd}, 0x{imm:x}")
}

// A register and the target of a jump.
fn jump_text(alloc: Global, mnemonic: &str, rd: Reg, target: u32) -> Result<String, AllocError>
    ensures { IfOk result (λ text. string_bytes text ≡ jump_text mnemonic.now rd target) }
{
    let target = address_text(alloc, target)?;
    let text = with_two(alloc, mnemonic, name(rd), target.as_str())?;
    Ok(text)
}

// Two registers and the target of a branch.
fn branch_text(
    alloc: Global,
    mnemonic: &str,
    rs1: Reg,
    rs2: Reg,
    target: u32,
) -> Result<String, AllocError>
    ensures { IfOk result (λ text. string_bytes text ≡ branch_text mnemonic.now rs1 rs2 target) }
{
    let target = address_text(alloc, target)?;
    let text = with_three(alloc, mnemonic, name(rs1), name(rs2), target.as_str())?;
    Ok(text)
}

// Two operands.
fn with_two(alloc: Global, mnemonic: &str, a: &str, b: &str) -> Result<String, AllocError>
    ensures { IfOk result (λ text. string_bytes text ≡ with_two mnemonic.now a.now b.now) }
{
    format!(in alloc; "{mnemonic} {a}, {b}")
}

// Three operands.
fn with_three(
    alloc: Global,
    mnemonic: &str,
    a: &str,
    b: &str,
    c: &str,
) -> Result<String, AllocError>
    ensures { IfOk result (λ text. string_bytes text ≡ with_three mnemonic.now a.now b.now c.now) }
{
    format!(in alloc; "{mnemonic} {a}, {b}, {c}")
}

// An address in eight digits.
fn address_text(alloc: Global, address: u32) -> Result<String, AllocError>
    ensures { IfOk result (λ text. string_bytes text ≡ address_text address) }
{
    let mut text = String::from_str(alloc, "0x")?;
    push_digits(&mut text, address)?;
    Ok(text)
}

// A digit from 0 to 15.
fn hex_digit(value: u32) -> char
    requires { value < 16 }
    ensures ascii { result < 128 }
    ensures value { result ≡ hex_digit value }
{
    if value < 10 {
        char::from((value + 48) as u8)
    } else {
        char::from((value + 87) as u8)
    }
}

/// Appends the eight hexadecimal digits of a word, small ones: all of them or none. `Err`: no memory was
/// left for them, and the text is as it was.
pub fn push_digits(text: &mut String, word: u32) -> Result<(), AllocError>
    ensures ok { OnOk result (string_bytes text.new ≡ string_bytes text.old ++ eight_digits word) }
    ensures err { OnErr result (string_bytes text.new ≡ string_bytes text.old) }
    ensures full { OnErr result (string_capacity text.old < string_len text.old + 8) }
{
    text.reserve(8)?;
    put_digit(text, hex_digit(word >> 28));
    put_digit(text, hex_digit((word >> 24) & 15));
    put_digit(text, hex_digit((word >> 20) & 15));
    put_digit(text, hex_digit((word >> 16) & 15));
    put_digit(text, hex_digit((word >> 12) & 15));
    put_digit(text, hex_digit((word >> 8) & 15));
    put_digit(text, hex_digit((word >> 4) & 15));
    put_digit(text, hex_digit(word & 15));
    Ok(())
}

// Appends a digit for which there is room.
fn put_digit(text: &mut String, digit: char)
    requires ascii { digit < 128 }
    requires room { string_len text.old + 1 ≤ string_capacity text.old }
    ensures bytes { string_bytes text.new ≡ string_bytes text.old ++ digit ∷ [] }
    ensures len { string_len text.new ≡ string_len text.old + 1 }
    ensures capacity { string_capacity text.old ≤ string_capacity text.new }
{
    let _ = text.push(digit);
}

// A FENCE by its two sets, or as its word.
fn fence(
    alloc: Global,
    fm: FenceSet,
    before: FenceSet,
    after: FenceSet,
    rd: Reg,
    rs1: Reg,
) -> Result<String, AllocError>
    ensures { IfOk result (λ text. HasText (Instr.Fence fm before after rd rs1) 0
        (string_bytes text)) }
{
    let plain = fm.bits() == 0 && rd.number() == 0 && rs1.number() == 0;
    if plain && before.bits() != 0 && after.bits() != 0 {
        return sets(alloc, before, after);
    }
    let mut text = String::from_str(alloc, ".word 0x")?;
    push_digits(
        &mut text,
        encode(Instr::Fence {
            fm,
            before,
            after,
            rd,
            rs1,
        }),
    )?;
    Ok(text)
}

// A FENCE by its two sets.
fn sets(alloc: Global, before: FenceSet, after: FenceSet) -> Result<String, AllocError>
    ensures { IfOk result (λ text. string_bytes text
        ≡ with_two (codes "fence") (set_text before) (set_text after)) }
{
    with_two(alloc, "fence", set_text(before), set_text(after))
}

// The letters of a set.
fn set_text(set: FenceSet) -> &'static str
    ensures { result.now ≡ set_text set }
{
    match set.bits() {
        0 => "",
        1 => "w",
        2 => "r",
        3 => "rw",
        4 => "o",
        5 => "ow",
        6 => "or",
        7 => "orw",
        8 => "i",
        9 => "iw",
        10 => "ir",
        11 => "irw",
        12 => "io",
        13 => "iow",
        14 => "ior",
        _ => "iorw",
    }
}

//! Instructions as other assemblers take them too.
ghost use Rattle.std.specs.Prelude.{◌≡◌};
ghost use Rattle.std.specs.Option.{option_map};
ghost use Rattle.statements.specs.Spelling.{named};
ghost use Rattle.convert.specs.Tables as spec;

use crate::fields::is_name;
use crate::operands::is_register;
use std::alloc::{AllocError, Global};

/// The mnemonic of this language for one that is called otherwise elsewhere.
pub(crate) fn mnemonic_of(name: &str) -> Option<&'static str>
    ensures { option_map (λ found. found.now) result ≡ named spec.mnemonics name.now }
{
    match name {
        "b" => Some("j"),
        "move" => Some("mv"),
        "lla" => Some("la"),
        "scall" => Some("ecall"),
        "sbreak" => Some("ebreak"),
        _ => None,
    }
}

/// The instruction with an immediate for one of three registers.
pub(crate) fn with_immediate(name: &str) -> Option<&'static str>
    ensures { option_map (λ found. found.now) result ≡ named spec.with_immediates name.now }
{
    match name {
        "add" => Some("addi"),
        "and" => Some("andi"),
        "or" => Some("ori"),
        "xor" => Some("xori"),
        "sll" => Some("slli"),
        "srl" => Some("srli"),
        "sra" => Some("srai"),
        "slt" => Some("slti"),
        "sltu" => Some("sltiu"),
        _ => None,
    }
}

/// The comparison that takes its operands the other way round.
pub(crate) fn the_other_way(name: &str) -> Option<&'static str>
    ensures { option_map (λ found. found.now) result ≡ named spec.the_other_way name.now }
{
    match name {
        "sgt" => Some("slt"),
        "sgtu" => Some("sltu"),
        _ => None,
    }
}

fn is_load(name: &str) -> bool {
    matches!(name, "lb" | "lbu" | "lh" | "lhu" | "lw")
}

fn is_store(name: &str) -> bool {
    matches!(name, "sb" | "sh" | "sw")
}

// Whether an operand is a label, where an address in brackets could stand.
fn is_label(operand: &[u8]) -> bool {
    is_name(operand) && !is_register(operand)
}

/// An instruction as it is written here, of operands that are written as they are here: one statement, or two with a line feed between them.
pub(crate) fn push_instruction(
    alloc: Global,
    text: &mut Vec<u8>,
    name: &str,
    operands: &[Vec<u8>],
) -> Result<(), AllocError> {
    match operands {
        [label] if name == "tail" => push_tail(text, label),
        [rd, address] if is_load(name) && is_label(address) => push_load(text, name, rd, address),
        [rd, rs1] if name == "jalr" && is_register(rs1) => push_jump(text, rd, rs1),
        [rd, rs] if name == "zext.b" => push_three(text, "andi", rd, rs, b"255"),
        [rs2, address, rt] if is_store(name) && is_label(address) => push_store(
            text, name, rs2, address, rt,
        ),
        [rd, rs1, last] => push_of_three(alloc, text, name, rd, rs1, last),
        _ => push_plain(text, name, operands),
    }
}

// `lw rd, label`, in two instructions as GNU as has it.
fn push_load(text: &mut Vec<u8>, name: &str, rd: &[u8], label: &[u8]) -> Result<(), AllocError> {
    push_upper(text, rd, label)?;
    push_lower(text, name, rd, label, rd)
}

// `sw rs2, label, rt`, likewise.
fn push_store(
    text: &mut Vec<u8>,
    name: &str,
    rs2: &[u8],
    label: &[u8],
    rt: &[u8],
) -> Result<(), AllocError> {
    push_upper(text, rt, label)?;
    push_lower(text, name, rs2, label, rt)
}

// `tail label`, likewise.
fn push_tail(text: &mut Vec<u8>, label: &[u8]) -> Result<(), AllocError> {
    push_upper(text, b"t1", label)?;
    push_lower(text, "jalr", b"zero", label, b"t1")
}

fn push_upper(text: &mut Vec<u8>, rd: &[u8], label: &[u8]) -> Result<(), AllocError> {
    text.extend_from_slice(b"lui ")?;
    text.extend_from_slice(rd)?;
    text.extend_from_slice(b", %hi(")?;
    text.extend_from_slice(label)?;
    text.extend_from_slice(b")\n")
}

fn push_lower(
    text: &mut Vec<u8>,
    name: &str,
    register: &[u8],
    label: &[u8],
    base: &[u8],
) -> Result<(), AllocError> {
    text.extend_from_slice(name.as_bytes())?;
    text.extend_from_slice(b" ")?;
    text.extend_from_slice(register)?;
    text.extend_from_slice(b", %lo(")?;
    text.extend_from_slice(label)?;
    text.extend_from_slice(b")(")?;
    text.extend_from_slice(base)?;
    text.extend_from_slice(b")")
}

// `jalr rd, rs1`.
fn push_jump(text: &mut Vec<u8>, rd: &[u8], rs1: &[u8]) -> Result<(), AllocError> {
    push_three(text, "jalr", rd, rs1, b"0")
}

// An instruction of three operands; the last may be a number where a register is meant.
fn push_of_three(
    alloc: Global,
    text: &mut Vec<u8>,
    name: &str,
    rd: &[u8],
    rs1: &[u8],
    last: &[u8],
) -> Result<(), AllocError> {
    if let Some(swapped) = the_other_way(name) {
        return push_three(text, swapped, rd, last, rs1);
    }
    if name == "subi" || (name == "sub" && !is_register(last)) {
        let negated = negated(alloc, last)?;
        return push_three(text, "addi", rd, rs1, negated.as_slice());
    }
    let name = match with_immediate(name) {
        Some(immediate) if !is_register(last) => immediate,
        _ => name,
    };
    push_three(text, name, rd, rs1, last)
}

// A number with the other sign.
fn negated(alloc: Global, number: &[u8]) -> Result<Vec<u8>, AllocError> {
    match number {
        [b'-', digits @ ..] => Vec::from_slice(alloc, digits),
        _ => {
            let mut text = Vec::from_slice(alloc, b"-")?;
            text.extend_from_slice(number)?;
            Ok(text)
        }
    }
}

fn push_plain(text: &mut Vec<u8>, name: &str, operands: &[Vec<u8>]) -> Result<(), AllocError> {
    text.extend_from_slice(name.as_bytes())?;
    for (i, operand) in operands.iter().enumerate() {
        push_operand(text, i, operand.as_slice())?;
    }
    Ok(())
}

// An instruction of three operands.
fn push_three(
    text: &mut Vec<u8>,
    name: &str,
    first: &[u8],
    second: &[u8],
    third: &[u8],
) -> Result<(), AllocError> {
    text.extend_from_slice(name.as_bytes())?;
    push_operand(text, 0, first)?;
    push_operand(text, 1, second)?;
    push_operand(text, 2, third)
}

// An operand, after a blank or a comma.
fn push_operand(text: &mut Vec<u8>, index: usize, operand: &[u8]) -> Result<(), AllocError> {
    if index == 0 {
        text.extend_from_slice(b" ")?;
    } else {
        text.extend_from_slice(b", ")?;
    }
    text.extend_from_slice(operand)
}

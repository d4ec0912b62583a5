//! Lines of the language.
//!
//! - `read BYTES`: the line's labels, each with a colon, and its statement: its kind, with the words of
//!   instructions, the numbers of registers, and labels and numbers as they are.
//! - `towards BYTES`: the word of the line's jump or branch where it goes 8 bytes on.

use rv32i::{BranchOffset, Instr, JumpOffset, Reg, encode};
use statements::{Condition, Item, Line, LineError, Name, Statement, Target, Width, read_line};
use std::alloc::{AllocError, Global};
use std::fmt::Debug;
use testing::{Fault, bytes_of, shown};

/// What is answered of a line.
pub(crate) fn answer_line(alloc: Global, arguments: &[&str]) -> Result<String, Fault> {
    match arguments {
        ["read", bytes] => {
            let text = bytes_of(alloc, bytes)?;
            match read_line(alloc, &text) {
                Ok(line) => Ok(line_text(alloc, &line)?),
                Err(error) => wrong(alloc, error),
            }
        }
        ["towards", bytes] => {
            let text = bytes_of(alloc, bytes)?;
            match read_line(alloc, &text) {
                Ok(line) => shown(alloc, word_towards(&line)?),
                Err(error) => wrong(alloc, error),
            }
        }
        _ => Err(Fault::NoCommand),
    }
}

fn wrong(alloc: Global, error: LineError) -> Result<String, Fault> {
    match error {
        LineError::NoMemory => Err(Fault::NoMemoryInCall),
        error => Ok(format!(in alloc; "{error:?}")?),
    }
}

fn word_towards(line: &Line) -> Result<u32, Fault> {
    match &line.statement {
        Some(Statement::Jump { rd, .. }) => Ok(encode(Instr::Jal {
            rd: *rd,
            offset: JumpOffset::new(8),
        })),
        Some(
            Statement::Branch {
                condition,
                rs1,
                rs2,
                ..
            },
        ) => Ok(encode(condition.instruction(*rs1, *rs2, BranchOffset::new(8)))),
        _ => Err(Fault::NoCommand),
    }
}

fn line_text(alloc: Global, line: &Line) -> Result<String, AllocError> {
    let mut text = String::new(alloc);
    for name in line.labels.as_slice() {
        let name = name.as_str();
        write!(text, "{name}: ")?;
    }
    match &line.statement {
        Some(statement) => push_statement(&mut text, statement)?,
        None => text.push_str("none")?,
    }
    Ok(text)
}

fn push_statement(text: &mut String, statement: &Statement) -> Result<(), AllocError> {
    match statement {
        Statement::One(instr) => push_number(text, "One", encode(*instr)),
        Statement::Two(first, second) => push_two(text, encode(*first), encode(*second)),
        Statement::Jump { rd, target } => push_jump(text, *rd, target),
        Statement::Branch {
            condition,
            rs1,
            rs2,
            target,
        } => push_branch(text, *condition, *rs1, *rs2, target),
        Statement::Upper { rd, label } => push_label(text, "Upper", *rd, label),
        Statement::Lower {
            operation,
            rd,
            rs1,
            label,
        } => push_part(text, operation, *rd, *rs1, label),
        Statement::StoreLower {
            operation,
            rs1,
            rs2,
            label,
        } => push_part(text, operation, *rs1, *rs2, label),
        Statement::LoadAddress { rd, label } => push_label(text, "LoadAddress", *rd, label),
        Statement::Call { label } => write!(text, "Call {}", label.as_str()),
        Statement::Data { width, items } => push_data(text, *width, items.as_slice()),
        Statement::Space(size) => push_number(text, "Space", *size),
        Statement::Align(power) => push_number(text, "Align", *power),
        Statement::Nothing => text.push_str("Nothing"),
    }
}

fn push_number(text: &mut String, kind: &str, number: u32) -> Result<(), AllocError> {
    write!(text, "{kind} {number}")
}

fn push_two(text: &mut String, first: u32, second: u32) -> Result<(), AllocError> {
    write!(text, "Two {first} {second}")
}

fn push_label(text: &mut String, kind: &str, rd: Reg, label: &Name) -> Result<(), AllocError> {
    let (rd, label) = (rd.number(), label.as_str());
    write!(text, "{kind} {rd} {label}")
}

// An instruction at the lower part of an address, by its operation and its two registers.
fn push_part(
    text: &mut String,
    operation: &impl Debug,
    first: Reg,
    second: Reg,
    label: &Name,
) -> Result<(), AllocError> {
    let (first, second, label) = (first.number(), second.number(), label.as_str());
    write!(text, "Lower {operation:?} {first} {second} {label}")
}

fn push_jump(text: &mut String, rd: Reg, target: &Target) -> Result<(), AllocError> {
    let rd = rd.number();
    write!(text, "Jump {rd} ")?;
    push_target(text, target)
}

fn push_branch(
    text: &mut String,
    condition: Condition,
    rs1: Reg,
    rs2: Reg,
    target: &Target,
) -> Result<(), AllocError> {
    let (rs1, rs2) = (rs1.number(), rs2.number());
    write!(text, "Branch {condition:?} {rs1} {rs2} ")?;
    push_target(text, target)
}

fn push_target(text: &mut String, target: &Target) -> Result<(), AllocError> {
    match target {
        Target::Label(name) => text.push_str(name.as_str()),
        Target::Address(address) => write!(text, "{address}"),
    }
}

fn push_data(text: &mut String, width: Width, items: &[Item]) -> Result<(), AllocError> {
    write!(text, "Data {width:?}")?;
    for item in items {
        push_item(text, item)?;
    }
    Ok(())
}

fn push_item(text: &mut String, item: &Item) -> Result<(), AllocError> {
    match item {
        Item::Label(name) => write!(text, " {}", name.as_str()),
        Item::Number(bits) => write!(text, " {bits}"),
    }
}

//! A statement of another assembler, rewritten.

use crate::directives::{Directive, Ending, directive_of};
use crate::fields::{fields, is_name, word_of};
use crate::instructions::{mnemonic_of, push_instruction};
use crate::names::Names;
use crate::operands::{Known, push_signed};
use crate::texts::bytes_of;
use crate::unsaid::why_unsaid;
use crate::values::value_of;
use byte_strings::trimmed;
use statements::{LineError, read_line, without_comment};
use std::alloc::{AllocError, Global};
use std::str;

/// What became of a statement.
#[derive(Clone, Copy)]
pub(crate) enum Rewritten {
    /// It was written, or means nothing here.
    Said,
    /// It can't be said here: why, and what to do instead.
    Unsaid(&'static str),
    /// It begins a part that can't be said here.
    Part,
}

/// Why a macro is not said.
pub(crate) const NO_MACROS: &str =
    "there are no macros and no repetitions here: write the lines out where they are used";

const NO_VALUE: &str = "this has no value here: write the number";

const NO_TEXT: &str =
    "a text is in quotes, with \\n \\t \\r \\0 \\\" \\\\ or octal digits after a backslash";

const NO_POWER: &str = "an alignment is a power of 2";

const NO_FILLING: &str = "the bytes of a space are 0 here: write others as .byte";

/// Whether a line, or a statement of it, can stand as it is: it is one of this language, and names no constant.
pub(crate) fn stands(alloc: Global, line: &[u8], names: &Names) -> Result<bool, AllocError> {
    match read_line(alloc, line) {
        Ok(_) => Ok(!names.has_constant_in(without_comment(line))),
        Err(LineError::NoMemory) => Err(AllocError),
        Err(_) => Ok(false),
    }
}

/// Writes a statement, which has no blanks round it, as this language has it: none, one or two lines.
pub(crate) fn push_statement(
    alloc: Global,
    text: &mut Vec<u8>,
    statement: &[u8],
    known: &mut Known,
) -> Result<Rewritten, AllocError> {
    if stands(alloc, statement, &known.names)? {
        text.extend_from_slice(statement)?;
        return Ok(Rewritten::Said);
    }
    if let Some((name, sum)) = assignment(statement) {
        return set_constant(alloc, text, name, sum, known);
    }
    let (mnemonic, rest) = word_of(statement);
    match str::from_utf8(mnemonic) {
        Ok(name) => push_named(alloc, text, name, rest, known),
        Err(_) => {
            text.extend_from_slice(statement)?;
            Ok(Rewritten::Said)
        }
    }
}

// The name and the sum of `NAME = SUM`.
fn assignment(statement: &[u8]) -> Option<(&[u8], &[u8])> {
    let end = statement.iter().position(|b| *b == b'=')?;
    let name = trimmed(&statement[..end]);
    if is_name(name) {
        Some((name, &statement[end + 1..]))
    } else {
        None
    }
}

fn push_named(
    alloc: Global,
    text: &mut Vec<u8>,
    name: &str,
    rest: &[u8],
    known: &mut Known,
) -> Result<Rewritten, AllocError> {
    if let Some(why) = why_unsaid(name) {
        return Ok(Rewritten::Unsaid(why));
    }
    let operands = fields(alloc, b',', rest)?;
    match directive_of(name) {
        Some(directive) => push_directive(alloc, text, directive, operands.as_slice(), known),
        None => {
            let mnemonic = match mnemonic_of(name) {
                Some(mnemonic) => mnemonic,
                None => name,
            };
            push_operands(alloc, text, mnemonic, operands.as_slice(), known)
        }
    }
}

fn push_operands(
    alloc: Global,
    text: &mut Vec<u8>,
    mnemonic: &str,
    operands: &[&[u8]],
    known: &Known,
) -> Result<Rewritten, AllocError> {
    let mut written = Vec::new(alloc);
    for operand in operands {
        let mut one = Vec::new(alloc);
        known.push_operand(alloc, &mut one, *operand)?;
        written.push(one)?;
    }
    push_instruction(alloc, text, mnemonic, written.as_slice())?;
    Ok(Rewritten::Said)
}

fn push_directive(
    alloc: Global,
    text: &mut Vec<u8>,
    directive: Directive,
    operands: &[&[u8]],
    known: &mut Known,
) -> Result<Rewritten, AllocError> {
    match directive {
        Directive::Nothing => Ok(Rewritten::Said),
        Directive::Text(ending) => push_texts(alloc, text, ending, operands),
        Directive::Data(name) => push_operands(alloc, text, name, operands, known),
        Directive::Space => push_space(alloc, text, operands, known),
        Directive::Align => push_alignment(alloc, text, operands, known),
        Directive::AlignTo => push_alignment_to(alloc, text, operands, known),
        Directive::Constant => match operands {
            [name, sum] => set_constant(alloc, text, *name, *sum, known),
            [both] => {
                let (name, sum) = word_of(*both);
                set_constant(alloc, text, name, sum, known)
            }
            _ => Ok(Rewritten::Unsaid(NO_VALUE)),
        },
        Directive::Part => Ok(Rewritten::Part),
    }
}

// A name for a number; one for the place where it stands is a label.
fn set_constant(
    alloc: Global,
    text: &mut Vec<u8>,
    name: &[u8],
    sum: &[u8],
    known: &mut Known,
) -> Result<Rewritten, AllocError> {
    match value_of(alloc, sum, &known.names)? {
        Some(value) if is_here(sum, value, &known.names) => {
            text.extend_from_slice(name)?;
            text.extend_from_slice(b":")?;
            Ok(Rewritten::Said)
        }
        Some(value) => {
            known.names.set_constant(alloc, name, value)?;
            Ok(Rewritten::Said)
        }
        None => Ok(Rewritten::Unsaid(NO_VALUE)),
    }
}

// Whether a sum is `.`, or begins with it and comes to the same.
fn is_here(sum: &[u8], value: i64, names: &Names) -> bool {
    let (first, _) = word_of(trimmed(sum));
    matches!(first, b".") && value == i64::from(names.here)
}

// The bytes of texts in quotes, one `.byte` for all.
fn push_texts(
    alloc: Global,
    text: &mut Vec<u8>,
    ending: Ending,
    literals: &[&[u8]],
) -> Result<Rewritten, AllocError> {
    let mut bytes = Vec::new(alloc);
    for literal in literals {
        match bytes_of(alloc, *literal)? {
            Some(more) => bytes.extend_from_slice(more.as_slice())?,
            None => return Ok(Rewritten::Unsaid(NO_TEXT)),
        }
        if ending == Ending::Zero {
            bytes.push(0)?;
        }
    }
    push_bytes(alloc, text, bytes.as_slice())?;
    Ok(Rewritten::Said)
}

fn push_bytes(alloc: Global, text: &mut Vec<u8>, bytes: &[u8]) -> Result<(), AllocError> {
    for (i, byte) in bytes.iter().enumerate() {
        if i == 0 {
            text.extend_from_slice(b".byte ")?;
        } else {
            text.extend_from_slice(b", ")?;
        }
        push_signed(alloc, text, i64::from(*byte))?;
    }
    Ok(())
}

fn push_space(
    alloc: Global,
    text: &mut Vec<u8>,
    operands: &[&[u8]],
    known: &Known,
) -> Result<Rewritten, AllocError> {
    match operands {
        [count] => push_one(alloc, text, b".space ", *count, known),
        [count, filling] if value_of(alloc, *filling, &known.names)? == Some(0) => {
            push_one(alloc, text, b".space ", *count, known)
        }
        _ => Ok(Rewritten::Unsaid(NO_FILLING)),
    }
}

fn push_alignment(
    alloc: Global,
    text: &mut Vec<u8>,
    operands: &[&[u8]],
    known: &Known,
) -> Result<Rewritten, AllocError> {
    match operands {
        [power, ..] => push_one(alloc, text, b".align ", *power, known),
        [] => Ok(Rewritten::Unsaid(NO_POWER)),
    }
}

// `.balign N`, with the power of 2 that N is.
fn push_alignment_to(
    alloc: Global,
    text: &mut Vec<u8>,
    operands: &[&[u8]],
    known: &Known,
) -> Result<Rewritten, AllocError> {
    let [number, ..] = operands else {
        return Ok(Rewritten::Unsaid(NO_POWER));
    };
    match value_of(alloc, *number, &known.names)? {
        Some(value) => match power_of(value) {
            Some(power) => {
                text.extend_from_slice(b".align ")?;
                push_signed(alloc, text, power)?;
                Ok(Rewritten::Said)
            }
            None => Ok(Rewritten::Unsaid(NO_POWER)),
        },
        None => Ok(Rewritten::Unsaid(NO_VALUE)),
    }
}

// Which power of 2, up to 4,096, a number is.
fn power_of(value: i64) -> Option<i64> {
    match value {
        1 => Some(0),
        2 => Some(1),
        4 => Some(2),
        8 => Some(3),
        16 => Some(4),
        32 => Some(5),
        64 => Some(6),
        128 => Some(7),
        256 => Some(8),
        512 => Some(9),
        1024 => Some(10),
        2048 => Some(11),
        4096 => Some(12),
        _ => None,
    }
}

fn push_one(
    alloc: Global,
    text: &mut Vec<u8>,
    directive: &[u8],
    operand: &[u8],
    known: &Known,
) -> Result<Rewritten, AllocError> {
    text.extend_from_slice(directive)?;
    known.push_operand(alloc, text, operand)?;
    Ok(Rewritten::Said)
}

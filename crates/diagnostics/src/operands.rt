//! Which operand of a statement is at fault.

use crate::forms::Form;
use crate::kinds::{Kind, refusal};
use byte_strings::{first_field, trimmed, without_leading_blanks};
use statements::LineError;
use std::alloc::{AllocError, Global};
use std::str;

/// An operand of a statement.
#[derive(Clone, Copy)]
pub(crate) struct Operand<'a> {
    /// How many come before it.
    pub index: usize,
    /// What it has to be.
    pub kind: Kind,
    /// Its text, without the blanks round it.
    pub text: &'a str,
    /// The line from where it begins up to the comment.
    pub part: &'a [u8],
}

/// A part of a line as text: parts of a text that are cut at ASCII are text.
pub(crate) fn text_of(part: &[u8]) -> &str {
    match str::from_utf8(part) {
        Ok(text) => text,
        Err(_) => "",
    }
}

/// How many operands a text has.
pub(crate) fn count_of(operands: &[u8]) -> usize {
    if operands.is_empty() {
        return 0;
    }
    operands
        .iter()
        .filter(|b| **b == b',')
        .count()
        .saturating_add(1)
}

/// The operand of this index. `None`: there are too few.
pub(crate) fn operand_at(operands: &[u8], index: usize) -> Option<&[u8]> {
    let mut rest = Some(operands);
    let mut passed = 0;
    'fields: while let Some(fields) = rest {
        if passed == index {
            return Some(without_leading_blanks(fields));
        }
        let (_, after) = first_field(b',', fields);
        rest = after;
        passed = passed.saturating_add(1);
    }
    None
}

/// The first operand of this text, or all of them, where there is none.
pub(crate) fn operand_named<'a>(operands: &'a [u8], name: &str) -> &'a [u8] {
    let mut rest = Some(operands);
    'fields: while let Some(fields) = rest {
        let (field, after) = first_field(b',', fields);
        if trimmed(field) == name.as_bytes() {
            return without_leading_blanks(fields);
        }
        rest = after;
    }
    operands
}

/// The text of an operand, which begins a part of a line.
pub(crate) fn operand_text(part: &[u8]) -> &str {
    let (field, _) = first_field(b',', part);
    text_of(trimmed(field))
}

/// The first operand that is blank.
pub(crate) fn blank_operand(operands: &[u8]) -> Option<(usize, &[u8])> {
    let mut rest = Some(operands);
    let mut index = 0;
    'fields: while let Some(fields) = rest {
        let (field, after) = first_field(b',', fields);
        if trimmed(field).is_empty() {
            return Some((index, without_leading_blanks(fields)));
        }
        rest = after;
        index = index.saturating_add(1);
    }
    None
}

/// The first operand that the reader refuses with this error, as what the form wants there. `None`: each is right by itself, or that many
/// are not taken. `Err`: no memory was left.
pub(crate) fn at_fault<'a>(
    alloc: Global,
    form: Form,
    operands: &'a [u8],
    error: LineError,
) -> Result<Option<Operand<'a>>, AllocError> {
    let count = count_of(operands);
    let mut rest = Some(operands);
    let mut index = 0;
    'fields: while let Some(fields) = rest {
        let (field, after) = first_field(b',', fields);
        let text = text_of(trimmed(field));
        let Some(kind) = form.kind_at(count, index) else {
            return Ok(None);
        };
        if refusal(alloc, kind, text)? == Some(error) {
            return Ok(Some(Operand {
                index,
                kind,
                text,
                part: without_leading_blanks(fields),
            }));
        }
        rest = after;
        index = index.saturating_add(1);
    }
    Ok(None)
}

//! Operands: numbers in other forms, sums of constants, numeric labels.

use crate::fields::is_name;
use crate::local_labels::LocalLabels;
use crate::names::Names;
use crate::values::value_of;
use byte_strings::trimmed;
use numerals::{NumeralError, magnitude};
use rv32i::reg_in;
use std::alloc::{AllocError, Global};

/// What is known of the names in operands.
#[derive(Drop)]
pub(crate) struct Known {
    /// Constants and labels.
    pub names: Names,
    /// Numeric labels.
    pub locals: LocalLabels,
}

/// Whether a text names a register.
pub(crate) fn is_register(text: &[u8]) -> bool {
    reg_in(text).is_some()
}

impl Known {
    /// An operand as it is written here.
    pub(crate) fn push_operand(
        &self,
        alloc: Global,
        text: &mut Vec<u8>,
        operand: &[u8],
    ) -> Result<(), AllocError> {
        if self.locals.push_reference(alloc, text, operand)? {
            return Ok(());
        }
        match address_parts(operand) {
            Some((offset, bracket)) => {
                self.push_number(alloc, text, offset)?;
                text.extend_from_slice(bracket)
            }
            None => self.push_number(alloc, text, operand),
        }
    }

    // A number as it is written here; any other text as it is.
    fn push_number(
        &self,
        alloc: Global,
        text: &mut Vec<u8>,
        operand: &[u8],
    ) -> Result<(), AllocError> {
        match self.number_of(alloc, operand)? {
            Some(value) => push_signed(alloc, text, value),
            None => text.extend_from_slice(operand),
        }
    }

    // The value of an operand that is to be written as a number.
    fn number_of(&self, alloc: Global, operand: &[u8]) -> Result<Option<i64>, AllocError> {
        if is_number(operand) || is_register(operand) {
            return Ok(None);
        }
        if is_name(operand) {
            return Ok(self.names.constant(operand));
        }
        value_of(alloc, operand, &self.names)
    }
}

/// A number, in decimal digits.
pub(crate) fn push_signed(alloc: Global, text: &mut Vec<u8>, value: i64) -> Result<(), AllocError> {
    let digits = value.to_string(alloc)?;
    text.extend_from_slice(digits.as_bytes())
}

// Whether a text is a number as it is written here.
fn is_number(text: &[u8]) -> bool {
    let digits = match text {
        [b'-', digits @ ..] => digits,
        _ => text,
    };
    match magnitude(digits) {
        Ok(_) | Err(NumeralError::TooLarge) => true,
        Err(NumeralError::Malformed) => false,
    }
}

// The offset of an address with a register in brackets, and these.
fn address_parts(operand: &[u8]) -> Option<(&[u8], &[u8])> {
    let begin = operand.iter().rposition(|b| *b == b'(')?;
    let (offset, bracket) = operand.split_at(begin);
    match bracket {
        [b'(', name @ .., b')'] if is_register(trimmed(name)) => Some((trimmed(offset), bracket)),
        _ => None,
    }
}

//! Numbers, characters and strings as other assemblers write them.

use crate::kinds::{Kind, is_of};
use crate::operands::text_of;
use byte_strings::trimmed;
use numerals::numeral;
use std::alloc::{AllocError, Global};

/// How many bytes a string has at most whose bytes are told.
const LONGEST_STRING: usize = 64;

/// A number with its sign turned. `Ok(None)`: the text is no number. `Err`: no memory was left.
pub(crate) fn negated(alloc: Global, text: &str) -> Result<Option<String>, AllocError> {
    if !is_of(alloc, Kind::Constant, text)? {
        return Ok(None);
    }
    match text.strip_prefix("-") {
        Some(number) => Ok(Some(String::from_str(alloc, number)?)),
        None => Ok(Some(format!(in alloc; "-{text}")?)),
    }
}

// The sign before a text, and what comes after it.
fn signed(text: &str) -> (&'static str, &str) {
    match text.strip_prefix("-") {
        Some(rest) => ("-", rest),
        None => ("", text),
    }
}

/// The number of a character in quotes, as `-48` for `-'0'`. `Ok(None)`: the text is none. `Err`: no memory was left.
pub(crate) fn character(alloc: Global, text: &str) -> Result<Option<String>, AllocError> {
    let (sign, rest) = signed(text);
    let Some(rest) = rest.strip_prefix("'") else {
        return Ok(None);
    };
    let Some(inner) = rest.strip_suffix("'") else {
        return Ok(None);
    };
    match character_in(inner) {
        Some(number) => Ok(Some(format!(in alloc; "{sign}{number}")?)),
        None => Ok(None),
    }
}

fn character_in(inner: &str) -> Option<u8> {
    match inner.as_bytes() {
        [byte] => Some(*byte),
        [b'\\', byte] => Some(escaped(*byte)),
        _ => None,
    }
}

// The byte that is written by this one after a backslash.
fn escaped(byte: u8) -> u8 {
    match byte {
        b'n' => 10,
        b't' => 9,
        b'r' => 13,
        b'0' => 0,
        other => other,
    }
}

/// The number that a text writes in binary. `Ok(None)`: it writes none of 32 bits. `Err`: no memory was left.
pub(crate) fn binary(alloc: Global, text: &str) -> Result<Option<String>, AllocError> {
    let (sign, rest) = signed(text);
    let Some(digits) = rest.strip_prefix("0b") else {
        return Ok(None);
    };
    match numeral(2, digits.as_bytes()) {
        Ok(number) => Ok(Some(format!(in alloc; "{sign}{number}")?)),
        Err(_) => Ok(None),
    }
}

/// The bytes of a string in double quotes, each as a number, with a 0 after them if it is to end so. `Ok(None)`: the text is no such string,
/// or is long. `Err`: no memory was left.
pub(crate) fn string_bytes_of(
    alloc: Global,
    text: &[u8],
    ends_with_0: bool,
) -> Result<Option<String>, AllocError> {
    let Some(rest) = text_of(trimmed(text)).strip_prefix("\"") else {
        return Ok(None);
    };
    let Some(inner) = rest.strip_suffix("\"") else {
        return Ok(None);
    };
    if inner.len() > LONGEST_STRING || inner.is_empty() && !ends_with_0 {
        return Ok(None);
    }
    let mut bytes = String::new(alloc);
    push_bytes(alloc, &mut bytes, inner.as_bytes())?;
    if ends_with_0 {
        push_item(alloc, &mut bytes, 0)?;
    }
    Ok(Some(bytes))
}

fn push_bytes(alloc: Global, bytes: &mut String, inner: &[u8]) -> Result<(), AllocError> {
    let mut escapes = false;
    for byte in inner {
        if escapes {
            push_item(alloc, bytes, escaped(*byte))?;
            escapes = false;
        } else if *byte == b'\\' {
            escapes = true;
        } else {
            push_item(alloc, bytes, *byte)?;
        }
    }
    Ok(())
}

fn push_item(alloc: Global, bytes: &mut String, byte: u8) -> Result<(), AllocError> {
    if !bytes.is_empty() {
        bytes.push_str(", ")?;
    }
    let number = byte.to_string(alloc)?;
    bytes.push_str(number.as_str())
}

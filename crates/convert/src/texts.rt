//! Texts in quotes, and the characters that a backslash begins in them.
ghost use Rattle.std.specs.Prelude.{◌≡◌, ◌∷◌, []};
ghost use Rattle.statements.specs.Spelling.{named};
ghost use Rattle.convert.specs.Tables as spec;

use std::alloc::{AllocError, Global};

/// The byte that a letter after a backslash means. `None`: it means none.
pub(crate) fn escaped(letter: u8) -> Option<u8>
    ensures { result ≡ named spec.escapes (letter ∷ []) }
{
    match letter {
        b'n' => Some(10),
        b't' => Some(9),
        b'r' => Some(13),
        b'a' => Some(7),
        b'b' => Some(8),
        b'f' => Some(12),
        b'v' => Some(11),
        b'"' | b'\'' | b'\\' => Some(letter),
        _ => None,
    }
}

/// The value of an octal digit.
pub(crate) fn octal_digit(byte: u8) -> Option<u8> {
    if b'0' <= byte && byte <= b'7' {
        Some(byte - b'0')
    } else {
        None
    }
}

// How far a text is read.
#[derive(Clone, Copy)]
enum Reading {
    // A character begins.
    Plain,
    // After a backslash.
    Backslash,
    // After this many octal digits, and the byte that they write so far.
    Octal(u8, u8),
}

/// The bytes of a text in quotes. `None`: the quotes are not round it, or a backslash begins no character.
pub(crate) fn bytes_of(alloc: Global, literal: &[u8]) -> Result<Option<Vec<u8>>, AllocError> {
    let mut bytes = Vec::new(alloc);
    let mut reading = Reading::Plain;
    let Some(inner) = inner_of(literal) else {
        return Ok(None);
    };
    for byte in inner {
        match take(&mut bytes, reading, *byte)? {
            Some(next) => reading = next,
            None => return Ok(None),
        }
    }
    ended(bytes, reading)
}

// What stands between the quotes.
fn inner_of(literal: &[u8]) -> Option<&[u8]> {
    match literal {
        [b'"', inner @ .., b'"'] => Some(inner),
        _ => None,
    }
}

fn ended(mut bytes: Vec<u8>, reading: Reading) -> Result<Option<Vec<u8>>, AllocError> {
    match reading {
        Reading::Plain => Ok(Some(bytes)),
        Reading::Backslash => Ok(None),
        Reading::Octal(_, value) => {
            bytes.push(value)?;
            Ok(Some(bytes))
        }
    }
}

// One byte more.
fn take(bytes: &mut Vec<u8>, reading: Reading, byte: u8) -> Result<Option<Reading>, AllocError> {
    match reading {
        Reading::Plain => plain(bytes, byte),
        Reading::Backslash => after_backslash(bytes, byte),
        Reading::Octal(count, value) => after_octal(bytes, count, value, byte),
    }
}

fn plain(bytes: &mut Vec<u8>, byte: u8) -> Result<Option<Reading>, AllocError> {
    if byte == b'\\' {
        return Ok(Some(Reading::Backslash));
    }
    bytes.push(byte)?;
    Ok(Some(Reading::Plain))
}

fn after_backslash(bytes: &mut Vec<u8>, byte: u8) -> Result<Option<Reading>, AllocError> {
    if let Some(digit) = octal_digit(byte) {
        return Ok(Some(Reading::Octal(1, digit)));
    }
    match escaped(byte) {
        Some(character) => {
            bytes.push(character)?;
            Ok(Some(Reading::Plain))
        }
        None => Ok(None),
    }
}

fn after_octal(
    bytes: &mut Vec<u8>,
    count: u8,
    value: u8,
    byte: u8,
) -> Result<Option<Reading>, AllocError> {
    match octal_digit(byte) {
        Some(digit) if count < 3 => Ok(Some(Reading::Octal(
            count + 1,
            value.wrapping_mul(8).wrapping_add(digit),
        ))),
        _ => {
            bytes.push(value)?;
            plain(bytes, byte)
        }
    }
}

//! A text, converted.
ghost use Rattle.std.specs.Prelude.{◌≡◌, ◌≤◌, None, IfOk, length, vec_len};
ghost use Rattle.assembler.specs.Placed.{error_of};
ghost use Rattle.convert.specs.Conversions.{AsItWas};

use crate::draft::{Draft, Source, Whole};
use crate::remark::{Reason, Remark};
use assembler::{AsmError, AsmErrorKind, assemble};
use std::alloc::{AllocError, Global};
use std::str;

// How many bytes the memory has that a text is assembled for.
const MEMORY_SIZE: u32 = 1_048_576;

/// A text that was converted.
#[derive(Drop)]
pub struct Conversion {
    /// The text.
    pub text: Vec<u8>,
    /// What is done otherwise than elsewhere, by line.
    pub notes: Vec<Remark>,
    /// What can't be said, by line.
    pub errors: Vec<Remark>,
}

/// A text for another assembler (RARS, Venus, GNU as), converted. One that assembles for a memory of 1 MiB stays as it is. In any other each
/// line is followed by what it became, in their order: a line that can stand stays as it is, one that cannot is rewritten with its old text
/// as a comment after it, and one that can't be said here stays, with an error. A text without an error assembles. `Err`: no memory was left.
pub fn converted(alloc: Global, text: &[u8]) -> Result<Conversion, AllocError>
    ensures taken { error_of text.now 1048576 ≡ None → IfOk result (λ c. AsItWas text.now c) }
    ensures assembles { IfOk result (λ c. vec_len c.errors ≡ 0 → error_of c.text.items 1048576 ≡ None) }
{
    match assemble(alloc, text, MEMORY_SIZE) {
        Ok(_) => as_it_was(alloc, text),
        Err(error) => match error.kind {
            AsmErrorKind::NoMemory => Err(AllocError),
            AsmErrorKind::NotUtf8 => unread(alloc, text, error),
            _ => converted_lines(alloc, text, error),
        },
    }
}

// A text that assembles.
fn as_it_was(alloc: Global, text: &[u8]) -> Result<Conversion, AllocError>
    ensures { IfOk result (λ c. AsItWas text.now c) }
{
    Ok(Conversion {
        text: Vec::from_slice(alloc, text)?,
        notes: Vec::new(alloc),
        errors: Vec::new(alloc),
    })
}

// A text that is too long or no UTF-8.
fn unread(alloc: Global, text: &[u8], error: AsmError) -> Result<Conversion, AllocError>
    ensures { IfOk result (λ c. vec_len c.errors ≡ 1) }
{
    let mut errors = Vec::new(alloc);
    errors.push(remark_of(error.line as usize, error.kind))?;
    Ok(Conversion {
        text: Vec::from_slice(alloc, text)?,
        notes: Vec::new(alloc),
        errors,
    })
}

fn remark_of(line: usize, kind: AsmErrorKind) -> Remark {
    Remark {
        line,
        reason: Reason::Assembler(kind),
    }
}

fn converted_lines(alloc: Global, text: &[u8], error: AsmError) -> Result<Conversion, AllocError>
    ensures { IfOk result (λ c. vec_len c.errors ≡ 0 → error_of c.text.items 1048576 ≡ None) }
{
    if error.line == 0 {
        return unread(alloc, text, error);
    }
    match str::from_utf8(text) {
        Ok(text) => {
            let (conversion, origins) = drafted(alloc, text)?;
            assembled(alloc, conversion, origins.as_slice())
        }
        Err(_) => unread(alloc, text, error),
    }
}

// A text, converted, and the line that each line of the conversion comes from.
fn drafted(alloc: Global, text: &str) -> Result<(Conversion, Vec<usize>), AllocError> {
    let whole = Whole {
        has_start: text.contains("_start:"),
        has_a7: text.contains("a7") || text.contains("x17"),
    };
    let lines: Vec<&str> = text.lines().collect(alloc)?;
    drafted_lines(alloc, lines.as_slice(), whole)
}

// Lines, converted one after the other, each to one line at least.
fn drafted_lines(
    alloc: Global,
    lines: &[&str],
    whole: Whole,
) -> Result<(Conversion, Vec<usize>), AllocError>
    ensures { IfOk result (λ d. length lines.now ≤ vec_len d.1) }
{
    let mut draft = Draft::new(alloc, whole);
    for (i, line) in lines.iter().enumerate() {
        let source = Source {
            number: i + 1,
            line: line.as_bytes(),
            following: &lines[i + 1..],
        };
        draft.take(alloc, source)?;
    }
    Ok(draft.into_parts())
}

// A conversion without errors, assembled: what is wrong with it is told of the line that it comes from.
fn assembled(
    alloc: Global,
    mut conversion: Conversion,
    origins: &[usize],
) -> Result<Conversion, AllocError>
    ensures { IfOk result (λ c. vec_len c.errors ≡ 0 → error_of c.text.items 1048576 ≡ None) }
{
    if !conversion.errors.is_empty() {
        return Ok(conversion);
    }
    match assemble(alloc, conversion.text.as_slice(), MEMORY_SIZE) {
        Ok(_) => Ok(conversion),
        Err(error) => match error.kind {
            AsmErrorKind::NoMemory => Err(AllocError),
            _ => {
                conversion
                    .errors
                    .push(remark_of(origin_of(origins, error.line), error.kind))?;
                Ok(conversion)
            }
        },
    }
}

// The line that a line of a conversion comes from, both counted from 1.
fn origin_of(origins: &[usize], line: u32) -> usize {
    if line == 0 {
        return 0;
    }
    match origins.get(line as usize - 1) {
        Some(origin) => *origin,
        None => 0,
    }
}

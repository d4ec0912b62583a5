//! The lines of a text, by their numbers.

ghost use Rattle.std.specs.Prelude.{◌≡◌, ◌≤◌, IfOk, IfSome, length, map, option_map, slice_get};
ghost use Rattle.std.specs.Str.Lines.{lines};
ghost use Rattle.diagnostics.specs.Errors as spec;

use assembler::TEXT_LIMIT;
use std::alloc::{AllocError, Global};
use std::str;

/// A text, if the assembler reads it: it is UTF-8, and not too long.
pub(crate) fn text_read(text: &[u8]) -> Option<&str>
    ensures { IfSome result (λ read. length read.now ≤ 1048576) }
{
    if text.len() > TEXT_LIMIT {
        return None;
    }
    match str::from_utf8(text) {
        Ok(text) => Some(text),
        Err(_) => None,
    }
}

/// The lines of a text. `Err`: no memory was left.
pub(crate) fn lines_of(alloc: Global, text: &str) -> Result<Vec<&str>, AllocError>
    requires { length text.now ≤ 1048576 }
    ensures lines { IfOk result (λ list. map (λ line. line.now) list.items ≡ lines text.now) }
    ensures few { IfOk result (λ list. length list.items ≤ 1048577) }
{
    text.lines().collect(alloc)
}

/// The line of a number, counted from 1, if there is one.
pub(crate) fn numbered<'a>(texts: &[&'a str], number: u32) -> Option<&'a str>
    ensures { option_map (λ found. found.now) result
        ≡ spec.numbered (map (λ text. text.now) texts.now) number }
{
    if number == 0 {
        return None;
    }
    match texts.get(number as usize - 1) {
        Some(text) => Some(*text),
        None => None,
    }
}

/// The line of this number, counted from 1, if the text is UTF-8 and has it.
pub fn line_at(text: &[u8], line: u32) -> Option<&str>
    ensures { option_map (λ found. found.now) result ≡ spec.line_in text.now line }
{
    if line == 0 {
        return None;
    }
    match str::from_utf8(text) {
        Ok(text) => line_after(text, line - 1),
        Err(_) => None,
    }
}

// The line after that many.
fn line_after(text: &str, count: u32) -> Option<&str>
    ensures { option_map (λ found. found.now) result ≡ slice_get (lines text.now) count }
{
    let mut passed = 0;
    for line in text.lines() {
        if passed == count {
            return Some(line);
        }
        passed += 1;
    }
    None
}

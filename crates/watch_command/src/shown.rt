//! A line of what was said.
ghost use Rattle.std.specs.Prelude.{◌≡◌, ◌<◌, ◌++◌, OnOk};
ghost use Rattle.std.specs.List.{flat_map};
ghost use Rattle.std.specs.Str.{is_utf8};
ghost use Rattle.watch_command.specs.Shown as spec;
ghost use Rattle.watch_command.specs.Private.Conversing.{IsEmptied};

use framing::Unframer;
use std::alloc::{AllocError, Global};
use std::str;

/// Appends a line: the number of an event, a mark with its blanks, and words, which are shown on one line.
#[tactic(auto, unfolding(crate::specs::Shown::line))]
pub(crate) fn add_line(
    alloc: Global,
    text: &mut Vec<u8>,
    number: u64,
    mark: &[u8],
    words: &[u8],
) -> Result<(), AllocError>
    ensures { OnOk result
        (text.new.items ≡ text.old.items ++ spec.line number mark.now words.now) }
{
    let digits = number.to_string(alloc)?;
    text.extend_from_slice(digits.as_bytes())?;
    text.extend_from_slice(mark)?;
    add_shown(text, words)?;
    text.push(b'\n')?;
    Ok(())
}

/// Appends a line for each body that waits, and takes it.
pub(crate) fn add_bodies(
    alloc: Global,
    text: &mut Vec<u8>,
    number: u64,
    mark: &[u8],
    unframer: &mut Unframer,
) -> Result<(), AllocError>
    ensures lines { OnOk result (text.new.items ≡ text.old.items
        ++ flat_map (spec.line number mark.now) unframer.old.waiting) }
    ensures emptied { OnOk result (IsEmptied unframer.old unframer.new) }
{
    while let Some(body) = unframer.next_body() {
        add_line(alloc, text, number, mark, body)?;
    }
    Ok(())
}

fn add_shown(text: &mut Vec<u8>, words: &[u8]) -> Result<(), AllocError>
    ensures { OnOk result (text.new.items ≡ text.old.items ++ spec.shown words.now) }
{
    let utf8 = are_utf8(words);
    for byte in words {
        add_byte(text, utf8, *byte)?;
    }
    Ok(())
}

fn are_utf8(words: &[u8]) -> bool
    ensures { result ≡ is_utf8 words.now }
{
    match str::from_utf8(words) {
        Ok(_) => true,
        Err(_) => false,
    }
}

// Appends a byte, or its number, by whether all are UTF-8.
fn add_byte(text: &mut Vec<u8>, utf8: bool, byte: u8) -> Result<(), AllocError>
    ensures { OnOk result (text.new.items ≡ text.old.items ++ spec.shown_byte utf8 byte) }
{
    if is_plain(utf8, byte) {
        text.push(byte)?;
        return Ok(());
    }
    text.extend_from_slice(b"\\x")?;
    text.push(digit_of(byte / 16))?;
    text.push(digit_of(byte % 16))?;
    Ok(())
}

// Whether a byte is shown as it is.
fn is_plain(utf8: bool, byte: u8) -> bool
    ensures { result ≡ spec.is_plain utf8 byte }
{
    32 <= byte && byte != 127 && (utf8 || byte < 128)
}

// A hexadecimal digit.
fn digit_of(value: u8) -> u8
    requires { value < 16 }
    ensures { result ≡ spec.digit_of value }
{
    if value < 10 { 48 + value } else { 87 + value }
}

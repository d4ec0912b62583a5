//! The texts of a program, one after the other; each begins on a line of its own.

ghost use Rattle.std.specs.Prelude.{◌≡◌, IfOk};
ghost use Rattle.execution.specs.Texts as spec;

use image::Bytes;
use std::alloc::{AllocError, Global};

/// The texts one after the other, with a line feed after each that lacks one, but for the last. `Err`: no memory was left.
pub fn joined(alloc: Global, texts: &[Bytes]) -> Result<Vec<u8>, AllocError>
    ensures { IfOk result (λ whole. whole.items ≡ spec.joined texts.now) }
{
    let mut whole = Vec::new(alloc);
    for text in texts {
        if !is_whole(whole.as_slice()) {
            whole.push(b'\n')?;
        }
        whole.extend_from_slice(text.as_slice())?;
    }
    Ok(whole)
}

/// The text in which a line of the whole stands, counted from 0, and which line of that it is.
pub fn place_in(texts: &[Bytes], line: u32) -> (usize, u32)
    ensures { result ≡ spec.place_in texts.now line }
{
    let mut passed = 0;
    let mut rest = line;
    for text in texts {
        let count = line_count(text.as_slice());
        if rest as usize <= count {
            return (passed, rest);
        }
        rest -= count as u32;
        passed += 1;
    }
    (passed, rest)
}

// How many lines a text has.
fn line_count(text: &[u8]) -> usize
    ensures { result ≡ spec.line_count text.now }
{
    let mut count = 0;
    for byte in text {
        if *byte == b'\n' {
            count += 1;
        }
    }
    if !is_whole(text) {
        count += 1;
    }
    count
}

// Whether what follows a text begins on a line of its own: the text is empty, or ends in a line feed.
fn is_whole(text: &[u8]) -> bool
    ensures { result ≡ spec.is_whole text.now }
{
    text.is_empty() || text[text.len() - 1] == b'\n'
}

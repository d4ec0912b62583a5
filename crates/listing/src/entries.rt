//! The listing of an image, in memory.
ghost use Rattle.std.specs.Prelude.{◌≡◌, ◌+◌, ◌≤◌, ◌++◌, ◌∷◌, [], List, ℕ, length, string_bytes, IfOk, OnOk};
ghost use Rattle.image.specs.Memory.{first_address};
ghost use Rattle.listing.specs.Entries.{entry, listed, word_in, AreEntries, IsEntry, IsListing};

use image::{FIRST_ADDRESS, Image, word_at_index};
use rv32i::{push_digits, text_of_word};
use std::alloc::{AllocError, Global};

/// The listing of an image of at most 1 MiB.
pub(crate) fn entries_of(alloc: Global, image: &Image) -> Result<String, AllocError>
    requires { length image.now.bytes ≤ 1048576 }
    ensures { IfOk result (λ lines. IsListing image.now (string_bytes lines)) }
{
    let count = image.bytes.as_slice().len() / 4;
    let mut lines = String::new(alloc);
    for index in 0..count {
        push_listed(alloc, &mut lines, image, FIRST_ADDRESS + 4 * index as u32)?;
    }
    Ok(lines)
}

// The line of the word at an address, if it has one.
fn push_listed(
    alloc: Global,
    lines: &mut String,
    image: &Image,
    address: u32,
) -> Result<(), AllocError>
    requires from { first_address ≤ address }
    requires whole { address + 4 ≤ first_address + length image.now.bytes }
    ensures { OnOk result ((part : List ℕ)
        × AreEntries image.now.bytes (listed image.now.lines (address ∷ [])) part
        × (string_bytes lines.new ≡ string_bytes lines.old ++ part)) }
{
    match image.lines.line_of(address) {
        Some(_) => push_entry(alloc, lines, image.bytes.as_slice(), address),
        None => Ok(()),
    }
}

// The line of the word at an address.
fn push_entry(
    alloc: Global,
    lines: &mut String,
    bytes: &[u8],
    address: u32,
) -> Result<(), AllocError>
    requires from { first_address ≤ address }
    requires whole { address + 4 ≤ first_address + length bytes.now }
    ensures { OnOk result ((line : List ℕ) × IsEntry bytes.now address line
        × (string_bytes lines.new ≡ string_bytes lines.old ++ line)) }
{
    let word = word_at(bytes, address);
    let text = text_of_word(alloc, word, address)?;
    push_line(lines, address, word, text.as_str())?;
    Ok(())
}

fn push_line(lines: &mut String, address: u32, word: u32, text: &str) -> Result<(), AllocError>
    ensures { OnOk result (string_bytes lines.new
        ≡ string_bytes lines.old ++ entry address word text.now) }
{
    push_digits(lines, address)?;
    lines.push(' ')?;
    push_digits(lines, word)?;
    lines.push(' ')?;
    lines.push_str(text)?;
    lines.push('\n')?;
    Ok(())
}

// The little-endian word at an address.
fn word_at(bytes: &[u8], address: u32) -> u32
    requires from { first_address ≤ address }
    requires whole { address + 4 ≤ first_address + length bytes.now }
    ensures { result ≡ word_in bytes.now address }
{
    word_at_index(bytes, (address - FIRST_ADDRESS) as usize)
}

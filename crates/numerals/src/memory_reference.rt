//! Addresses as requests name them.
ghost use Rattle.std.specs.Prelude.{◌≡◌};
ghost use Rattle.numerals.specs.MemoryReferences.{address_in, offset_by};

use crate::word;

/// The address that a memory reference and what is added to it, in bytes, come to. A reference is a word, `0x` and 1 to 8
/// hexadecimal digits or decimal digits. `None`: it is none, or the sum is no number from 0 to 4,294,967,295.
pub fn address_in(text: &str, offset: i32) -> Option<u32>
    ensures { result ≡ address_in text.now offset }
{
    offset_by(offset, word(text.as_bytes()))
}

/// The address that a number and what is added to it come to. `None`: there is no number, or the sum is none from 0 to
/// 4,294,967,295.
pub fn offset_by(offset: i32, reference: Option<u32>) -> Option<u32>
    ensures { result ≡ offset_by offset reference }
{
    match reference {
        None => None,
        Some(number) => number.checked_add_signed(offset),
    }
}

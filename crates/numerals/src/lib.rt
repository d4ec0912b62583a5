//! Numbers as a text writes them: decimal digits, or `0x` and hexadecimal digits.
#![tactic(auto)]

mod memory_reference;
mod words;

ghost use Rattle.std.specs.Prelude.{◌≡◌, ◌≤◌};
ghost use Rattle.std.specs.List.{list_all};
ghost use Rattle.std.specs.Char.{digit_value, is_digit};
ghost use Rattle.std.specs.Option.{option_copied};
ghost use Rattle.std.specs.Str.Parse.{digits_value};
ghost use Rattle.numerals.specs.Numerals.{magnitude, numeral, prefixed, within};

pub use memory_reference::{address_in, offset_by};
use thiserror::Error;
pub use words::word;

/// The greatest number that 32 bits hold.
const GREATEST: u32 = 4_294_967_295;

/// Why a text is no number of 32 bits.
#[derive(Clone, Copy, Debug, PartialEq, Eq, Error)]
pub enum NumeralError {
    /// It is not digits of the radix, one or more.
    #[error("no number")]
    Malformed,
    /// Its digits write more than 4,294,967,295.
    #[error("the number is more than 32 bits hold")]
    TooLarge,
}

/// The number that a text writes: decimal digits, or `0x` and hexadecimal digits of either case; leading
/// zeros are fine. `Malformed`: the text is of another form; else `TooLarge`: the number is more than
/// 4,294,967,295.
pub fn magnitude(text: &[u8]) -> Result<u32, NumeralError>
    ensures { result ≡ magnitude text.now }
{
    match prefixed(text) {
        Some(digits) => numeral(16, digits),
        None => numeral(10, text),
    }
}

/// The number that digits of a radix from 2 to 16 write. `Malformed`: there is none, or another byte
/// among them; else `TooLarge`: the number is more than 4,294,967,295.
pub fn numeral(radix: u32, digits: &[u8]) -> Result<u32, NumeralError>
    requires low { 2 ≤ radix }
    requires high { radix ≤ 16 }
    ensures { result ≡ numeral radix digits.now }
{
    if !digits.is_empty() && are_digits(radix, digits) {
        value(radix, digits)
    } else {
        Err(NumeralError::Malformed)
    }
}

// The digits after `0x`, if a text begins with it.
pub(crate) fn prefixed(text: &[u8]) -> Option<&[u8]>
    ensures { option_copied result ≡ prefixed text.now }
{
    match text {
        [b'0', b'x', digits @ ..] => Some(digits),
        _ => None,
    }
}

fn are_digits(radix: u32, digits: &[u8]) -> bool
    ensures { result ≡ list_all (λ c. is_digit c radix) digits.now }
{
    digits.iter().all(|c| digit_value(*c) < radix)
}

// What digits write, where 32 bits hold it.
fn value(radix: u32, digits: &[u8]) -> Result<u32, NumeralError>
    requires low { 2 ≤ radix }
    requires high { radix ≤ 16 }
    ensures { result ≡ within (digits_value radix digits.now) }
{
    let mut value: u64 = 0;
    for digit in digits {
        value = value * u64::from(radix) + u64::from(digit_value(*digit));
        if value > u64::from(GREATEST) {
            return Err(NumeralError::TooLarge);
        }
    }
    Ok(value as u32)
}

// The value of a digit, 36 where the byte is none.
#[inline]
fn digit_value(byte: u8) -> u32
    ensures value { result ≡ digit_value byte }
    ensures small { result ≤ 36 }
{
    match byte {
        b'0'..=b'9' => u32::from(byte - b'0'),
        b'A'..=b'Z' => u32::from(byte - b'A') + 10,
        b'a'..=b'z' => u32::from(byte - b'a') + 10,
        _ => 36,
    }
}

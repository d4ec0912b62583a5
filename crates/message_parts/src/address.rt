//! Words as texts: `0x` and eight hexadecimal digits.
ghost use Rattle.std.specs.Prelude.{◌≡◌, ◌<◌, OnOk};
ghost use Rattle.serde_json.specs.Data.{string};
ghost use Rattle.message_parts.specs.Addresses.{address_text, hex_digit, word_in};
ghost use Rattle.message_parts.specs.Written.{IsWritten};

use json::Writer;
use std::alloc::AllocError;
use std::str;

/// The word as a text.
pub(crate) fn write(out: &mut Writer, word: u32) -> Result<(), AllocError>
    ensures { OnOk result (IsWritten out.old out.new (string (address_text word))) }
{
    match str::from_utf8(&text_of(word)) {
        Ok(text) => out.string(text),
        Err(_) => unreachable!(),
    }
}

fn text_of(word: u32) -> [u8; 10]
    ensures { result ≡ address_text word }
{
    [
        b'0',
        b'x',
        hex_digit(word >> 28),
        hex_digit(word >> 24 & 15),
        hex_digit(word >> 20 & 15),
        hex_digit(word >> 16 & 15),
        hex_digit(word >> 12 & 15),
        hex_digit(word >> 8 & 15),
        hex_digit(word >> 4 & 15),
        hex_digit(word & 15),
    ]
}

/// A hexadecimal digit, in small letters.
pub(crate) fn hex_digit(digit: u32) -> u8
    requires { digit < 16 }
    ensures { result ≡ hex_digit digit }
{
    if digit < 10 {
        digit as u8 + b'0'
    } else {
        digit as u8 + (b'a' - 10)
    }
}

/// The word that a text is taken for: a whole number, decimal or `0x` and hexadecimal digits, that
/// 32 bits hold.
pub(crate) fn word_in(text: &[u8]) -> Option<u32>
    ensures { result ≡ word_in text.now }
{
    match numerals::magnitude(text) {
        Ok(word) => Some(word),
        Err(_) => None,
    }
}

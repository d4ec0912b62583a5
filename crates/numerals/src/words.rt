//! Words as a text writes them.
ghost use Rattle.std.specs.Prelude.{◌≡◌, option_copied};
ghost use Rattle.numerals.specs.Words.{word_by, word_of};

use crate::{numeral, prefixed};

/// The most hexadecimal digits of a word.
const MOST_DIGITS: usize = 8;

/// The word that a text writes: `0x` and 1 to 8 hexadecimal digits of either case, or decimal digits that write at most
/// 4,294,967,295. `None`: it writes none.
pub fn word(text: &[u8]) -> Option<u32>
    ensures { result ≡ word_of text.now }
{
    word_by(text, prefixed(text))
}

fn word_by(text: &[u8], prefixed: Option<&[u8]>) -> Option<u32>
    ensures { result ≡ word_by text.now (option_copied prefixed.entry) }
{
    match prefixed {
        None => numeral(10, text).ok(),
        Some(digits) => {
            if digits.len() > MOST_DIGITS {
                return None;
            }
            numeral(16, digits).ok()
        }
    }
}

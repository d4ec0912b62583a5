//! Values as an editor writes them.

ghost use Rattle.std.specs.Prelude.{◌≡◌};
ghost use Rattle.variables.specs.Values.{negated, value_of};

use numerals::{numeral, word};

/// The greatest number whose negative has 32 bits.
const MOST_NEGATED: u32 = 0x8000_0000;

/// The word that a text writes: `0x` and 1 to 8 hexadecimal digits, or a decimal number from -2,147,483,648 to 4,294,967,295; a
/// negative one is taken modulo 2^32. `None`: it writes none.
pub(crate) fn value_of(text: &[u8]) -> Option<u32>
    ensures { result ≡ value_of text.now }
{
    match text {
        [b'-', digits @ ..] => negated(digits),
        _ => word(text),
    }
}

fn negated(digits: &[u8]) -> Option<u32>
    ensures { result ≡ negated digits.now }
{
    let number = numeral(10, digits).ok()?;
    if number > MOST_NEGATED {
        return None;
    }
    Some(number.wrapping_neg())
}

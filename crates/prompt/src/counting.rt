//! A number after an expression.
ghost use Rattle.std.specs.Prelude.{◌≡◌};
ghost use Rattle.std.specs.List.{list_all};
ghost use Rattle.std.specs.Char.{is_ascii_digit};
ghost use Rattle.prompt.specs.Lines as spec;

use crate::error::LineError;
use crate::part::Part;
use crate::text::number_in;

/// What comes before a number at the end of a part, and the number; all and nothing where there is none.
pub(crate) fn counted<'a>(part: &Part<'a>) -> (Part<'a>, Option<Part<'a>>)
    ensures { result ≡ spec.counted part.now }
{
    let (before, last) = part.last_word();
    if are_digits(last.text()) && ends_as_value(before.text()) {
        (before, Some(last))
    } else {
        (part.copied(), None)
    }
}

/// The number that a part is, if it is there.
pub(crate) fn count_in(part: Option<Part<'_>>) -> Result<Option<u32>, LineError>
    ensures { result ≡ spec.hits_in part.entry }
{
    match part {
        Some(part) => Ok(Some(number_in(&part)?)),
        None => Ok(None),
    }
}

fn are_digits(text: &[u8]) -> bool
    ensures { result ≡ list_all is_ascii_digit text.now }
{
    text.iter().all(|b| b.is_ascii_digit())
}

// Whether a text ends as a value does.
fn ends_as_value(text: &[u8]) -> bool
    ensures { result ≡ spec.ends_as_value text.now }
{
    match text {
        [.., last] => is_value_end(*last),
        [] => false,
    }
}

// Whether a value may end with this byte.
fn is_value_end(byte: u8) -> bool
    ensures { result ≡ spec.is_value_end byte }
{
    byte.is_ascii_alphabetic()
        || byte.is_ascii_digit()
        || matches!(byte, b'_' | b'.' | b'$' | b']' | b')' | b'\'')
}

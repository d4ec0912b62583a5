//! The tokens of a sum of constants.
ghost use Rattle.std.specs.Prelude.{◌<◌, ◌≤◌, length, IfSome};

use crate::fields::is_name_byte;
use crate::operations::Operation;
use crate::texts::{escaped, octal_digit};
use numerals::numeral;

/// A token.
pub(crate) enum Token<'a> {
    /// A space or a tab.
    Blank,
    /// A number, or a character's.
    Number(i64),
    /// A name; `.` is the place where the line is.
    Name(&'a [u8]),
    /// An operator, or the beginning of a bracket.
    Sign(Operation),
    /// The end of a bracket.
    Close,
}

/// The first token of a text, and what comes after it. `None`: it begins with none.
pub(crate) fn token_of(text: &[u8]) -> Option<(Token<'_>, &[u8])>
    ensures { IfSome result (λ t. length t.1.now < length text.now) }
{
    match text {
        [] => None,
        [b' ' | b'\t', rest @ ..] => Some((Token::Blank, rest)),
        [b')', rest @ ..] => Some((Token::Close, rest)),
        [b'\'', rest @ ..] => character(rest),
        [b'<', b'<', rest @ ..] => Some((Token::Sign(Operation::ShiftLeft), rest)),
        [b'>', b'>', rest @ ..] => Some((Token::Sign(Operation::ShiftRight), rest)),
        [first, rest @ ..] => match sign_of(*first) {
            Some(sign) => Some((Token::Sign(sign), rest)),
            None => word(text),
        },
    }
}

fn sign_of(byte: u8) -> Option<Operation> {
    match byte {
        b'(' => Some(Operation::Open),
        b'+' => Some(Operation::Add),
        b'-' => Some(Operation::Subtract),
        b'|' => Some(Operation::Or),
        b'&' => Some(Operation::And),
        b'^' => Some(Operation::ExclusiveOr),
        b'*' => Some(Operation::Multiply),
        b'/' => Some(Operation::Divide),
        b'%' => Some(Operation::Remainder),
        b'~' => Some(Operation::Invert),
        _ => None,
    }
}

// The character after a quote, which a second quote may end.
fn character(text: &[u8]) -> Option<(Token<'_>, &[u8])>
    ensures { IfSome result (λ t. length t.1.now < length text.now) }
{
    match text {
        [b'\\', letter, rest @ ..] => {
            let value = match octal_digit(*letter) {
                Some(digit) => digit,
                None => escaped(*letter)?,
            };
            Some((Token::Number(i64::from(value)), without_quote(rest)))
        }
        [b'\\'] | [] => None,
        [byte, rest @ ..] => Some((Token::Number(i64::from(*byte)), without_quote(rest))),
    }
}

fn without_quote(text: &[u8]) -> &[u8]
    ensures { length result.now ≤ length text.now }
{
    match text {
        [b'\'', rest @ ..] => rest,
        _ => text,
    }
}

// A number or a name.
fn word(text: &[u8]) -> Option<(Token<'_>, &[u8])>
    ensures { IfSome result (λ t. length t.1.now < length text.now) }
{
    let end = match text.iter().position(|b| !is_name_byte(*b)) {
        Some(end) => end,
        None => text.len(),
    };
    if end == 0 {
        return None;
    }
    let word = &text[..end];
    let token = if word[0].is_ascii_digit() {
        Token::Number(number_of(word)?)
    } else {
        Token::Name(word)
    };
    Some((token, &text[end..]))
}

/// The number that a text writes: decimal digits, octal ones after a 0, hexadecimal ones after `0x` or `0X`, binary ones after `0b` or
/// `0B`.
pub(crate) fn number_of(text: &[u8]) -> Option<i64> {
    let value = match text {
        [b'0', b'x' | b'X', digits @ ..] => numeral(16, digits),
        [b'0', b'b' | b'B', digits @ ..] => numeral(2, digits),
        [b'0', digits @ ..] if !digits.is_empty() => numeral(8, digits),
        _ => numeral(10, text),
    };
    match value {
        Ok(value) => Some(i64::from(value)),
        Err(_) => None,
    }
}

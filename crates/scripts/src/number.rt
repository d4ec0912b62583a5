//! Numbers in decimal digits.
ghost use Rattle.std.specs.Prelude.{◌≡◌, ◌+◌, ◌*◌, ◌≤◌};
ghost use Rattle.std.specs.Char.{digit_value, is_digit};
ghost use Rattle.std.specs.List.{list_all};
ghost use Rattle.std.specs.Str.Parse.{digits_value};
ghost use Rattle.scripts.specs.Lines.{fitting, small, wide};

use numerals::numeral;

/// The number that decimal digits write. `None`: there is none, or another byte among them, or it is more than 32 bits hold.
pub(crate) fn small(digits: &[u8]) -> Option<u32>
    ensures { result ≡ small digits.now }
{
    numeral(10, digits).ok()
}

/// The number that decimal digits write. `None`: there is none, or another byte among them, or it is more than 64 bits hold.
pub(crate) fn wide(digits: &[u8]) -> Option<u64>
    ensures { result ≡ wide digits.now }
{
    if !digits.is_empty() && are_digits(digits) {
        value(digits)
    } else {
        None
    }
}

fn are_digits(digits: &[u8]) -> bool
    ensures { result ≡ list_all (λ c. is_digit c 10) digits.now }
{
    digits.iter().all(|c| digit_value(*c) < 10)
}

// What digits write, where 64 bits hold it.
fn value(digits: &[u8]) -> Option<u64>
    ensures { result ≡ fitting (digits_value 10 digits.now) }
{
    let mut value: u64 = 0;
    for digit in digits {
        match with_digit(value, *digit) {
            Some(next) => value = next,
            None => return None,
        }
    }
    Some(value)
}

// What digits write with one more after them.
fn with_digit(value: u64, digit: u8) -> Option<u64>
    ensures { result ≡ fitting (value * 10 + digit_value digit) }
{
    match value.checked_mul(10) {
        Some(tens) => tens.checked_add(u64::from(digit_value(digit))),
        None => None,
    }
}

// The value of a digit, 36 where the byte is none.
fn digit_value(byte: u8) -> u32
    ensures value { result ≡ digit_value byte }
    ensures few { result ≤ 36 }
{
    match byte {
        b'0'..=b'9' => u32::from(byte - b'0'),
        b'A'..=b'Z' => u32::from(byte - b'A') + 10,
        b'a'..=b'z' => u32::from(byte - b'a') + 10,
        _ => 36,
    }
}

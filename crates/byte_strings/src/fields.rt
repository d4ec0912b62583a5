//! A text divided at a byte.
ghost use Rattle.std.specs.Prelude.{◌≡◌, ◌<◌, ◌==◌, ◌∷◌, length, position, IfSome};
ghost use Rattle.std.specs.Option.{option_copied, option_map};
ghost use Rattle.byte_strings.specs.Fields.{fields, fields_after, parted};

use memchr::memchr;

/// What comes before the first of a byte, and after it. `None`: there is none.
pub fn parted(byte: u8, text: &[u8]) -> Option<(&[u8], &[u8])>
    ensures parts { option_map (λ p. (p.0.now, p.1.now)) result ≡ parted byte text.now }
    ensures smaller { IfSome result (λ p. length p.1.now < length text.now) }
{
    let i = index_of(byte, text)?;
    Some((&text[..i], &text[i + 1..]))
}

// Where the first of a byte is.
fn index_of(byte: u8, text: &[u8]) -> Option<usize>
    ensures { result ≡ position (λ b. b == byte) text.now }
{
    memchr(byte, text)
}

/// The first field of a text that is divided at a byte, and what comes after that byte, if there is one.
pub fn first_field(byte: u8, text: &[u8]) -> (&[u8], Option<&[u8]>)
    ensures fields { fields byte text.now ≡ result.0.now ∷ fields_after byte (option_copied result.1) }
    ensures smaller { IfSome result.1 (λ after. length after.now < length text.now) }
{
    match parted(byte, text) {
        Some((field, after)) => (field, Some(after)),
        None => (text, None),
    }
}

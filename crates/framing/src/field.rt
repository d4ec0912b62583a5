//! The fields of a header part (base protocol, "Header Part").

ghost use Rattle.std.specs.Prelude.{◌≡◌, ◌≤◌, ◌==◌, length, position, true};
ghost use Rattle.std.specs.List.{list_all};
ghost use Rattle.std.specs.Option.{option_map};
ghost use Rattle.std.specs.Char.{is_ascii_digit};
ghost use Rattle.std.specs.Str.Parse.{digits_value};
ghost use Rattle.framing.specs.Headers.{is_name, is_name_byte, is_value, names_length};
ghost use Rattle.framing.specs.Reading.{field_in, number_in};
ghost use Rattle.byte_strings.specs.Blanks.{trimmed};

use byte_strings::trimmed;

/// A field: its name, and its value with the blanks round it.
#[derive(Clone, Copy)]
pub(crate) struct Field<'a> {
    name: &'a [u8],
    value: &'a [u8],
}

impl<'a> Field<'a> {
    /// The field on a line, which is parted at its first colon. `None`: the line is no field.
    pub(crate) fn on_line(line: &'a [u8]) -> Option<Field<'a>>
        ensures { option_map (λ f. record { name = f.name.now; value = f.value.now }) result
            ≡ field_in line.now }
    {
        let colon = colon_in(line)?;
        let name = &line[..colon];
        let value = &line[colon + 1..];
        if is_name(name) && is_value(value) {
            Some(Field { name, value })
        } else {
            None
        }
    }

    /// Whether the field says how long the content part is.
    pub(crate) fn is_length(&self) -> bool
        ensures { result ≡ names_length self.now.name.now }
    {
        self.name.eq_ignore_ascii_case(b"Content-Length")
    }

    /// The number that the value is. `None`: it is not 1 to 10 decimal digits.
    pub(crate) fn number(&self) -> Option<u64>
        ensures { result ≡ number_in (trimmed self.now.value.now) }
    {
        number_in(trimmed(self.value))
    }
}

/// Where the first colon is.
fn colon_in(line: &[u8]) -> Option<usize>
    ensures { result ≡ position (λ b. b == 58) line.now }
{
    line.iter().position(|b| *b == b':')
}

/// Whether the bytes can be a field's name: one or more visible ASCII characters, none a colon.
fn is_name(name: &[u8]) -> bool
    ensures { result ≡ is_name name.now }
{
    !name.is_empty() && are_name_bytes(name)
}

fn are_name_bytes(bytes: &[u8]) -> bool
    ensures { result ≡ list_all is_name_byte bytes.now }
{
    bytes.iter().all(|b| *b >= 0x21 && *b <= 0x7e && *b != b':')
}

/// Whether the bytes can be a field's value: ASCII characters from the space on, and tabs.
fn is_value(value: &[u8]) -> bool
    ensures { result ≡ is_value value.now }
{
    value
        .iter()
        .all(|b| *b >= 0x20 && *b <= 0x7e || *b == b'\t')
}

/// The number that 1 to 10 decimal digits are.
fn number_in(text: &[u8]) -> Option<u64>
    ensures { result ≡ number_in text.now }
{
    if !text.is_empty() && text.len() <= 10 && are_digits(text) {
        Some(digits_value(text))
    } else {
        None
    }
}

fn are_digits(text: &[u8]) -> bool
    ensures { result ≡ list_all is_ascii_digit text.now }
{
    text.iter().all(|b| b.is_ascii_digit())
}

/// The value of at most 10 decimal digits.
fn digits_value(digits: &[u8]) -> u64
    requires few { length digits.now ≤ 10 }
    requires all_digits { list_all is_ascii_digit digits.now ≡ true }
    ensures { result ≡ digits_value 10 digits.now }
{
    let mut value = 0;
    for digit in digits {
        value = value * 10 + u64::from(*digit - b'0');
    }
    value
}

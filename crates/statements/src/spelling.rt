//! How a line is spelled: names, and prefixes.
ghost use Rattle.std.specs.Prelude.{◌≡◌, ◌<◌, ◌==◌, ◌∷◌, List, ℕ, length, IsTrue, IfSome, Option, position};
ghost use Rattle.std.specs.List.{list_all};
ghost use Rattle.std.specs.Option.{option_copied, option_map};
ghost use Rattle.statements.specs.Spelling.{begins_name, stripped, is_name, is_name_byte};

fn begins_name(byte: u8) -> bool
    ensures { result ≡ begins_name byte }
{
    byte.is_ascii_alphabetic() || byte == b'_' || byte == b'.'
}

fn is_name_byte(byte: u8) -> bool
    ensures { result ≡ is_name_byte byte }
{
    begins_name(byte) || byte.is_ascii_digit() || byte == b'$'
}

/// Whether a text is a name: a letter, `_` or `.`, and then letters, digits, `_`, `.` and `$`.
pub fn is_name(text: &[u8]) -> bool
    ensures { result ≡ is_name text.now }
{
    match text {
        [] => false,
        [first, rest @ ..] => begins_name(*first) && are_name_bytes(rest),
    }
}

fn are_name_bytes(text: &[u8]) -> bool
    ensures { result ≡ list_all is_name_byte text.now }
{
    text.iter().all(|b| is_name_byte(*b))
}

/// The text without this prefix. `None`: it has another.
pub(crate) fn stripped<'a>(prefix: &[u8], text: &'a [u8]) -> Option<&'a [u8]>
    ensures { option_copied result ≡ stripped prefix.now text.now }
{
    match text.strip_prefix(prefix) {
        Some(rest) => Some(rest),
        None => None,
    }
}

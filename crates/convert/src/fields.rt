//! A line, divided where a byte stands outside quotes.

use byte_strings::{is_blank, trimmed, without_leading_blanks};
use std::alloc::{AllocError, Global};

/// Whether a place of a line is in quotes.
#[derive(Clone, Copy, PartialEq, Eq)]
pub(crate) enum Quoting {
    /// It is in none.
    Outside,
    /// It is in those that this byte began.
    Within(u8),
    /// It is in those, after a backslash.
    Escaped(u8),
}

impl Quoting {
    /// What it is after one byte more.
    pub(crate) fn after(self, byte: u8) -> Quoting {
        match self {
            Quoting::Outside => opened(byte),
            Quoting::Within(quote) => within(quote, byte),
            Quoting::Escaped(quote) => Quoting::Within(quote),
        }
    }
}

fn opened(byte: u8) -> Quoting {
    if byte == b'"' || byte == b'\'' {
        Quoting::Within(byte)
    } else {
        Quoting::Outside
    }
}

fn within(quote: u8, byte: u8) -> Quoting {
    if byte == quote {
        Quoting::Outside
    } else if byte == b'\\' {
        Quoting::Escaped(quote)
    } else {
        Quoting::Within(quote)
    }
}

/// What stands between separators outside quotes, without the blanks round it: one field more than there are separators.
pub(crate) fn fields<'a>(
    alloc: Global,
    separator: u8,
    text: &'a [u8],
) -> Result<Vec<&'a [u8]>, AllocError> {
    let mut fields = Vec::new(alloc);
    let mut quoting = Quoting::Outside;
    for field in text.split(|byte| {
        let divides = quoting == Quoting::Outside && *byte == separator;
        quoting = quoting.after(*byte);
        divides
    }) {
        fields.push(trimmed(field))?;
    }
    Ok(fields)
}

/// The first word of a text, and what comes after it, without the blanks round it.
pub(crate) fn word_of(text: &[u8]) -> (&[u8], &[u8]) {
    match text.iter().position(|b| is_blank(*b)) {
        Some(end) => (&text[..end], trimmed(&text[end..])),
        None => (text, b""),
    }
}

/// The blanks that a line begins with.
pub(crate) fn indentation(line: &[u8]) -> &[u8] {
    match line.iter().position(|b| !is_blank(*b)) {
        Some(end) => &line[..end],
        None => line,
    }
}

/// Whether a text is a name as GNU as has them: letters, digits, `_`, `.` and `$`, with no digit first.
pub(crate) fn is_name(text: &[u8]) -> bool {
    match text {
        [] => false,
        [first, ..] => !first.is_ascii_digit() && text.iter().all(|b| is_name_byte(*b)),
    }
}

/// Whether a byte can stand in a name.
pub(crate) fn is_name_byte(byte: u8) -> bool {
    byte.is_ascii_alphanumeric() || byte == b'_' || byte == b'.' || byte == b'$'
}

/// What comes after a line's first bytes, without the blanks before it. `None`: it begins with others.
pub(crate) fn after_prefix<'a>(line: &'a [u8], prefix: &[u8]) -> Option<&'a [u8]> {
    match line.strip_prefix(prefix) {
        Some(rest) => Some(without_leading_blanks(rest)),
        None => None,
    }
}

//! What parts a text in two: a word between blanks, or the sign of an assignment.
ghost use Rattle.std.specs.Prelude.{◌≡◌, ◌≤◌, ◌+◌, IfSome, length};
ghost use Rattle.prompt.specs.Separators as spec;

use crate::part::Part;
use byte_strings::is_blank;

/// What parts a text in two.
#[derive(Clone, Copy, PartialEq, Eq)]
pub(crate) enum Separator {
    /// The word `if`.
    If,
    /// The word `hit`.
    Hit,
    /// An `=` that is no part of another sign, nor a character between quotes.
    Assignment,
}

impl<'a> Part<'a> {
    /// What comes before the first separator of this kind, and what comes after it; all and nothing where there is none.
    pub(crate) fn parted(self, separator: Separator) -> (Part<'a>, Option<Part<'a>>)
        ensures { result ≡ spec.parted separator self.entry }
    {
        match first_at(separator, self.text()) {
            Some(at) => (
                self.prefix(at).bare(),
                Some(self.suffix(at + count_of(separator)).bare()),
            ),
            None => (self, None),
        }
    }
}

// Where the first of these separators is.
fn first_at(separator: Separator, text: &[u8]) -> Option<usize>
    ensures first { result ≡ spec.first_at separator text.now }
    ensures within { IfSome result (λ at. at + spec.count_of separator ≤ length text.now) }
{
    let mut rest = text;
    let mut at: usize = 1;
    while let [before, after @ ..] = rest {
        if separates(separator, *before, after) {
            return Some(at);
        }
        rest = after;
        at += 1;
    }
    None
}

// Whether a text after this byte begins with such a separator.
fn separates(separator: Separator, before: u8, text: &[u8]) -> bool
    ensures { result ≡ spec.separates separator before text.now }
{
    match separator {
        Separator::If => is_blank(before) && begins_word(b"if", text),
        Separator::Hit => is_blank(before) && begins_word(b"hit", text),
        Separator::Assignment => !is_sign(before) && begins_assignment(text),
    }
}

// Whether a text begins with a word.
fn begins_word(word: &[u8], text: &[u8]) -> bool
    ensures { result ≡ spec.begins_word word.now text.now }
{
    match text.strip_prefix(word) {
        Some([]) => true,
        Some([next, ..]) => is_blank(*next),
        None => false,
    }
}

// Whether a text begins with an `=` that no other follows.
fn begins_assignment(text: &[u8]) -> bool
    ensures { result ≡ spec.begins_assignment text.now }
{
    match text {
        [b'=', next, ..] => *next != b'=' && *next != b'\'',
        [b'='] => true,
        _ => false,
    }
}

// Whether a byte before an `=` makes it a part of another sign, or a character.
fn is_sign(byte: u8) -> bool
    ensures { result ≡ spec.is_sign byte }
{
    matches!(byte, b'=' | b'!' | b'<' | b'>' | b'\'')
}

// How many bytes a separator has.
fn count_of(separator: Separator) -> usize
    ensures { result ≡ spec.count_of separator }
{
    match separator {
        Separator::If => 2,
        Separator::Hit => 3,
        Separator::Assignment => 1,
    }
}

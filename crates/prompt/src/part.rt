//! Parts of a line.
ghost use Rattle.std.specs.Prelude.{◌≡◌, ◌≤◌, ◌+◌, ◌==◌, IsTrue, length, position};
ghost use Rattle.byte_strings.specs.Blanks.{is_blank, trimmed};
ghost use Rattle.prompt.specs.Parts as spec;

use byte_strings::{is_blank, trimmed, without_leading_blanks};
use std::marker::Model;

/// Some bytes of a line, and the column where they begin.
#[derive(Drop)]
pub(crate) struct Part<'a> {
    text: &'a [u8],
    column: usize,
}

impl<'a> Model for Part<'a> {
    ghost use Rattle.std.specs.Prelude.{◌≤◌, ◌+◌, ◌^◌, length};
    ghost use Rattle.prompt.specs.Parts.{Placed};

    ghost Value = { Placed };

    ghost view = { λ p. record { text = p.text.now; column = p.column } };

    ghost invariant = { λ p. p.column + length p.text.now ≤ 2 ^ 63 };
}

impl<'a> Part<'a> {
    /// A whole line.
    pub(crate) fn whole(line: &'a [u8]) -> Part<'a>
        ensures { result ≡ spec.whole line.now }
    {
        Part {
            text: line,
            column: 1,
        }
    }

    /// The same part.
    pub(crate) fn copied(&self) -> Part<'a>
        ensures { result ≡ self.now }
    {
        Part {
            text: self.text,
            column: self.column,
        }
    }

    /// Its bytes.
    pub(crate) fn text(&self) -> &'a [u8]
        ensures { result.now ≡ self.now.text }
    {
        self.text
    }

    /// The column where it begins.
    pub(crate) fn column(&self) -> usize
        ensures { result ≡ self.now.column }
    {
        self.column
    }

    /// The column after it.
    pub(crate) fn end(&self) -> usize
        ensures { result ≡ spec.end self.now }
    {
        self.column + self.text.len()
    }

    /// Whether it has no byte.
    pub(crate) fn is_empty(&self) -> bool
        ensures { result ≡ (length self.now.text == 0) }
    {
        self.text.is_empty()
    }

    /// Its first bytes, this many.
    pub(crate) fn prefix(&self, count: usize) -> Part<'a>
        requires { count ≤ length self.now.text }
        ensures { result ≡ spec.prefix count self.now }
    {
        Part {
            text: &self.text[..count],
            column: self.column,
        }
    }

    /// What comes after these.
    pub(crate) fn suffix(&self, count: usize) -> Part<'a>
        requires { count ≤ length self.now.text }
        ensures { result ≡ spec.suffix count self.now }
    {
        Part {
            text: &self.text[count..],
            column: self.column + count,
        }
    }

    /// It without the blanks round it.
    pub(crate) fn bare(&self) -> Part<'a>
        ensures { result ≡ spec.bare self.now }
    {
        let leading = leading_blanks(self.text);
        Part {
            text: trimmed(self.text),
            column: self.column + leading,
        }
    }

    /// Its first word, and what comes after that.
    pub(crate) fn first_word(&self) -> (Part<'a>, Part<'a>)
        ensures word { result.0 ≡ spec.first_word self.now }
        ensures rest { result.1 ≡ spec.after_first self.now }
    {
        let count = first_length(self.text());
        (self.prefix(count), self.suffix(count).bare())
    }

    /// What comes before its last word, and that word.
    pub(crate) fn last_word(&self) -> (Part<'a>, Part<'a>)
        ensures rest { result.0 ≡ spec.before_last self.now }
        ensures word { result.1 ≡ spec.last_word self.now }
    {
        let count = last_start(self.text());
        (self.prefix(count).bare(), self.suffix(count))
    }
}

// How many blanks a text begins with.
fn leading_blanks(text: &[u8]) -> usize
    ensures count { result ≡ spec.leading_blanks text.now }
    ensures few { result + length (trimmed text.now) ≤ length text.now }
{
    text.len() - without_leading_blanks(text).len()
}

// How many bytes the first word has.
fn first_length(text: &[u8]) -> usize
    ensures count { result ≡ spec.first_length text.now }
    ensures within { result ≤ length text.now }
{
    match first_blank(text) {
        Some(count) => count,
        None => text.len(),
    }
}

// Where the first blank is.
fn first_blank(text: &[u8]) -> Option<usize>
    ensures { result ≡ position is_blank text.now }
{
    text.iter().position(|b| is_blank(*b))
}

// How many bytes come before the last word.
fn last_start(text: &[u8]) -> usize
    ensures count { result ≡ spec.last_start text.now }
    ensures within { result ≤ length text.now }
{
    let mut start = text.len();
    while start > 0 && !is_blank(text[start - 1]) {
        start -= 1;
    }
    start
}

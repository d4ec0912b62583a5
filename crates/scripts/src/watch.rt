//! What is watched, as a line says it.
ghost use Rattle.std.specs.Prelude.{◌≡◌, ◌==◌};
ghost use Rattle.std.specs.List.{position};
ghost use Rattle.scripts.specs.Lines as spec;

use crate::line::after;
use crate::number::{small, wide};

/// How much of what a connection gets is watched.
#[derive(Clone, Copy, Debug, PartialEq, Eq)]
pub enum Cut {
    /// This many, from the first on.
    At(u64),
    /// All.
    All,
}

/// What is watched.
#[derive(Clone, Copy, Debug, PartialEq, Eq)]
pub struct Watch {
    /// The number of a connection.
    pub connection: u32,
    /// How much of what it gets.
    pub cut: Cut,
}

/// What a line watches, if it does.
pub(crate) fn watch_of(line: &[u8]) -> Option<Watch>
    ensures { result ≡ spec.watch_of line.now }
{
    match after(b"watch ", line) {
        Some(text) => two_words(text),
        None => None,
    }
}

// A connection, one space, and how much of what it gets.
fn two_words(text: &[u8]) -> Option<Watch>
    ensures { result ≡ spec.two_words text.now }
{
    match first_space(text) {
        Some(end) => watching(small(&text[..end]), cut_of(&text[end + 1..])),
        None => None,
    }
}

// Where the first space is.
fn first_space(text: &[u8]) -> Option<usize>
    ensures { result ≡ position (λ b. b == 32) text.now }
{
    text.iter().position(|b| *b == b' ')
}

fn watching(connection: Option<u32>, cut: Option<Cut>) -> Option<Watch>
    ensures { result ≡ spec.watching connection cut }
{
    match (connection, cut) {
        (Some(connection), Some(cut)) => Some(Watch { connection, cut }),
        _ => None,
    }
}

fn cut_of(word: &[u8]) -> Option<Cut>
    ensures { result ≡ spec.cut_of word.now }
{
    if word == b"all".as_slice() {
        return Some(Cut::All);
    }
    match wide(word) {
        Some(count) => Some(Cut::At(count)),
        None => None,
    }
}

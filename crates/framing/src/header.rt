//! The header part of a frame (base protocol, "Header Part").

ghost use Rattle.std.specs.Prelude.{◌≡◌, ◌+◌, ◌<◌, ◌≤◌, ℕ, length, Some, IfSome, ◌∷◌};
ghost use Rattle.std.specs.Option.{option_copied};
ghost use Rattle.framing.specs.Headers.{end_of};
ghost use Rattle.framing.specs.Reading.{content_length, lines_of, size_of};
ghost use Rattle.framing.specs.Private.Lines.{lines_after, with_length, length_within, EndsPast};

use crate::FrameError;
use crate::field::Field;

const CR: u8 = b'\r';

const LF: u8 = b'\n';

/// How many bytes a header part may have, with the empty line that ends it.
pub(crate) const HEADER_LIMIT: usize = 4096;

/// What a header part says of the length, as far as it was read.
#[derive(Clone, Copy)]
pub(crate) enum Lengths {
    /// No field says it.
    No,
    /// One field does. It has a number, or none where it is no number.
    One(Option<u64>),
    /// More than one field does.
    More,
}

impl Lengths {
    /// What the header part says with one more field.
    fn with(self, field: &Field<'_>) -> Lengths
        ensures { result ≡ with_length self
            (record { name = field.now.name.now; value = field.now.value.now }) }
    {
        if !field.is_length() {
            return self;
        }
        match self {
            Lengths::No => Lengths::One(field.number()),
            Lengths::One(_) | Lengths::More => Lengths::More,
        }
    }

    /// The length, or what is wrong with it.
    fn within(self, limit: u32) -> Result<usize, FrameError>
        ensures { result ≡ length_within limit self }
    {
        match self {
            Lengths::No => Err(FrameError::NoLength),
            Lengths::More => Err(FrameError::TwoLengths),
            Lengths::One(None) => Err(FrameError::BadLength),
            Lengths::One(Some(length)) if length > u64::from(limit) => Err(FrameError::TooLong),
            Lengths::One(Some(length)) => Ok(length as usize),
        }
    }
}

/// The size in bytes of the header part that some bytes begin with, its CR LF CR LF included. `None`:
/// the first 4,096 bytes hold no end. The search continues after the bytes that were searched before.
pub(crate) fn header_size(bytes: &[u8], searched: usize) -> Option<usize>
    requires { EndsPast searched bytes.now }
    ensures size { result ≡ size_of bytes.now }
    ensures room { IfSome result (λ size. (4 ≤ size) × (size ≤ length bytes.now)) }
{
    let last = bytes.len().min(HEADER_LIMIT);
    for i in searched.max(3)..last {
        if bytes[i - 3] == CR && bytes[i - 2] == LF && bytes[i - 1] == CR && bytes[i] == LF {
            return Some(i + 1);
        }
    }
    None
}

/// The length that a header part says; the text is the part without its CR LF CR LF.
pub(crate) fn content_length(limit: u32, text: &[u8]) -> Result<usize, FrameError>
    ensures { result ≡ content_length limit text.now }
{
    let mut lengths = Lengths::No;
    let mut rest = Some(text);
    while let Some(lines) = rest {
        let (line, after) = split_line(lines);
        let Some(field) = Field::on_line(line) else {
            return Err(FrameError::Header);
        };
        lengths = lengths.with(&field);
        rest = after;
    }
    lengths.within(limit)
}

/// The first line, and the lines after it where there are some.
fn split_line(lines: &[u8]) -> (&[u8], Option<&[u8]>)
    ensures lines { lines_of lines.now ≡ result.0.now ∷ lines_after (option_copied result.1) }
    ensures smaller { IfSome result.1 (λ after. length after.now < length lines.now) }
{
    for i in 1..lines.len() {
        if lines[i - 1] == CR && lines[i] == LF {
            return (&lines[..i - 1], Some(&lines[i + 1..]));
        }
    }
    (lines, None)
}

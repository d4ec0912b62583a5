//! Events as the lines that say them.
ghost use Rattle.std.specs.Prelude.{◌≡◌, ◌==◌, [], ◌∷◌, ◌++◌, IfOk, OnErr, Some, codes, decimal, option_copied, position, true};
ghost use Rattle.scripts.specs.Writing as spec;
ghost use Rattle.scripts.specs.declared.step.Step.TheVariants.{Recv, Turn};

use crate::line::end_of_line;
use byte_strings::Bytes;
use framing::frame;
use std::alloc::{AllocError, Global};

/// What happens to a session, as `Step` has it, lent.
#[derive(Clone, Copy, Debug)]
pub enum StepRef<'a> {
    /// An editor connects.
    Connect,
    /// A piece of what it sends comes.
    Recv(&'a [u8]),
    /// A request is answered, with what the file at this path holds, if one is named.
    Turn(Option<&'a str>),
    /// The program is given time for that many moves.
    Slice(u32),
    /// The program is to stand still before its next move.
    Hold,
    /// That many of the waiting bytes were sent.
    Sent(u64),
    /// The connection ends.
    DropConnection,
}

/// The line that says an event, with its line feed. A piece is `send` where it is the smallest frame of a body that a line can end with,
/// else `bytes`. `None`: no line says it, since the piece has no bytes, or the path is empty, has a line feed, or ends with a carriage
/// return. It fails where no memory is left.
pub fn step_line(alloc: Global, step: StepRef<'_>) -> Result<Option<Bytes>, AllocError>
    ensures line { IfOk result (λ line. line ≡ spec.written (spec.lent_step step.entry)) }
    ensures short { OnErr result (spec.has_line (spec.lent_step step.entry) ≡ true) }
{
    match step {
        StepRef::Connect => word_line(alloc, b"connect", b""),
        StepRef::Recv(piece) => piece_line(alloc, piece),
        StepRef::Turn(None) => word_line(alloc, b"turn", b""),
        StepRef::Turn(Some(path)) => file_line(alloc, path.as_bytes()),
        StepRef::Slice(moves) => number_line(alloc, b"slice ", u64::from(moves)),
        StepRef::Hold => word_line(alloc, b"hold", b""),
        StepRef::Sent(count) => number_line(alloc, b"sent ", count),
        StepRef::DropConnection => word_line(alloc, b"drop", b""),
    }
}

/// The last line of a script, with its line feed: all for this connection is watched. It fails where no memory is left.
pub fn watch_line(alloc: Global, connection: u32) -> Result<Bytes, AllocError>
    ensures { IfOk result (λ line. line ≡ spec.watch_all connection ++ 10 ∷ []) }
{
    let number = connection.to_string(alloc)?;
    line(alloc, b"watch ", number.as_bytes(), b" all")
}

fn piece_line(alloc: Global, piece: &[u8]) -> Result<Option<Bytes>, AllocError>
    ensures line { IfOk result (λ line. line ≡ spec.written (Recv piece.now)) }
    ensures short { OnErr result (spec.has_line (Recv piece.now) ≡ true) }
{
    if piece.is_empty() {
        return Ok(None);
    }
    match body_in(alloc, piece)? {
        Some(body) => word_line(alloc, b"send ", body),
        None => hex_line(alloc, piece),
    }
}

// The body that a piece is the smallest frame of, if it is one and a line can end with the body.
fn body_in(alloc: Global, piece: &[u8]) -> Result<Option<&[u8]>, AllocError>
    ensures { IfOk result (λ body. option_copied body ≡ spec.body_in piece.now) }
{
    let body = after_header(piece);
    if !can_end_line(body) {
        return Ok(None);
    }
    let framed = frame(alloc, body)?;
    if framed.as_slice() == piece {
        Ok(Some(body))
    } else {
        Ok(None)
    }
}

// What comes after the first two lines.
fn after_header(piece: &[u8]) -> &[u8]
    ensures { result.now ≡ spec.after_header piece.now (position (λ b. b == 10) piece.now) }
{
    match end_of_line(piece) {
        Some(end) if end + 3 <= piece.len() => &piece[end + 3..],
        _ => b"",
    }
}

// The line of a piece as it stands.
fn hex_line(alloc: Global, piece: &[u8]) -> Result<Option<Bytes>, AllocError>
    ensures { IfOk result (λ line. line ≡ Some (spec.piece_line piece.now None ++ 10 ∷ [])) }
{
    let digits = hex::encode(alloc, piece)?;
    word_line(alloc, b"bytes ", digits.as_bytes())
}

// The line of a turn with a file.
fn file_line(alloc: Global, path: &[u8]) -> Result<Option<Bytes>, AllocError>
    ensures line { IfOk result (λ line. line ≡ spec.written (Turn (Some path.now))) }
    ensures short { OnErr result (spec.has_line (Turn (Some path.now)) ≡ true) }
{
    if !can_end_line(path) {
        return Ok(None);
    }
    word_line(alloc, b"turn ", path)
}

fn number_line(alloc: Global, word: &[u8], number: u64) -> Result<Option<Bytes>, AllocError>
    ensures { IfOk result (λ line. line ≡ Some ((word.now ++ decimal number) ++ 10 ∷ [])) }
{
    let digits = number.to_string(alloc)?;
    word_line(alloc, word, digits.as_bytes())
}

// A word and what belongs to it.
fn word_line(alloc: Global, word: &[u8], argument: &[u8]) -> Result<Option<Bytes>, AllocError>
    ensures { IfOk result (λ line. line ≡ Some ((word.now ++ argument.now) ++ 10 ∷ [])) }
{
    Ok(Some(line(alloc, word, argument, b"")?))
}

// Three parts of a line, and its line feed.
fn line(alloc: Global, word: &[u8], argument: &[u8], rest: &[u8]) -> Result<Bytes, AllocError>
    ensures { IfOk result (λ line. line ≡ (word.now ++ argument.now ++ rest.now) ++ 10 ∷ []) }
{
    let count = word
        .len()
        .saturating_add(argument.len())
        .saturating_add(rest.len());
    let mut line = Vec::with_capacity(alloc, count.saturating_add(1))?;
    line.extend_from_slice(word)?;
    line.extend_from_slice(argument)?;
    line.extend_from_slice(rest)?;
    line.push(b'\n').map_err(AllocError::from)?;
    Ok(Bytes::from_vec(line))
}

// Whether a line can end with this text.
fn can_end_line(text: &[u8]) -> bool
    ensures { result ≡ spec.can_end_line text.now }
{
    let count = text.len();
    if count == 0 || text[count - 1] == b'\r' {
        return false;
    }
    is_in_one_line(text)
}

// Whether no line feed is in this text.
fn is_in_one_line(text: &[u8]) -> bool
    ensures { result ≡ spec.in_one_line text.now }
{
    text.iter().all(|b| *b != b'\n')
}

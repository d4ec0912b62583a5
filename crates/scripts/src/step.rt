//! What happens to a session, as a line says it.
ghost use Rattle.std.specs.Prelude.{◌≡◌, IfOk};
ghost use Rattle.scripts.specs.Lines as spec;

use crate::line::after;
use crate::number::{small, wide};
use crate::path::Path;
use byte_strings::Bytes;
use framing::frame;
use hex::FromHexError;
use std::alloc::{AllocError, Global};
use std::str;

/// What happens to a session, as a line says it.
#[derive(Debug, Drop)]
pub enum Step {
    /// An editor connects.
    Connect,
    /// A piece of what it sends comes.
    Recv(Bytes),
    /// A request is answered, with what the file at this path holds, if one is named.
    Turn(Option<Path>),
    /// The program is given time for this many moves.
    Slice(u32),
    /// The program is to stand still before its next move.
    Hold,
    /// This many of the waiting bytes were sent.
    Sent(u64),
    /// The connection ends.
    DropConnection,
}

/// The event that a line is, if it is one. It fails where no memory is left.
pub(crate) fn step_of(alloc: Global, line: &[u8]) -> Result<Option<Step>, AllocError>
    ensures { IfOk result (λ step. step ≡ spec.step_of line.now) }
{
    if line == b"connect".as_slice() {
        return Ok(Some(Step::Connect));
    }
    if line == b"turn".as_slice() {
        return Ok(Some(Step::Turn(None)));
    }
    if line == b"hold".as_slice() {
        return Ok(Some(Step::Hold));
    }
    if line == b"drop".as_slice() {
        return Ok(Some(Step::DropConnection));
    }
    with_argument(alloc, line)
}

// A line with an argument.
fn with_argument(alloc: Global, line: &[u8]) -> Result<Option<Step>, AllocError>
    ensures { IfOk result (λ step. step ≡ spec.with_argument line.now) }
{
    if let Some(json) = after(b"send ", line) {
        return sending(alloc, json);
    }
    if let Some(digits) = after(b"bytes ", line) {
        return coming(alloc, digits);
    }
    if let Some(file) = after(b"turn ", line) {
        return turning(alloc, file);
    }
    Ok(with_number(line))
}

// A line with a number.
fn with_number(line: &[u8]) -> Option<Step>
    ensures { result ≡ spec.with_number line.now }
{
    if let Some(digits) = after(b"slice ", line) {
        return slicing(digits);
    }
    if let Some(digits) = after(b"sent ", line) {
        return taking(digits);
    }
    None
}

// A frame of a body that is not empty.
fn sending(alloc: Global, json: &[u8]) -> Result<Option<Step>, AllocError>
    ensures { IfOk result (λ step. step ≡ spec.sending json.now) }
{
    if json.is_empty() {
        return Ok(None);
    }
    Ok(Some(Step::Recv(Bytes::from_vec(frame(alloc, json)?))))
}

// The bytes that digits write.
fn coming(alloc: Global, digits: &[u8]) -> Result<Option<Step>, AllocError>
    ensures { IfOk result (λ step. step ≡ spec.coming digits.now) }
{
    if digits.is_empty() {
        return Ok(None);
    }
    match hex::decode(alloc, digits) {
        Ok(bytes) => Ok(Some(Step::Recv(Bytes::from_vec(bytes)))),
        Err(FromHexError::OutOfMemory) => Err(AllocError),
        Err(_) => Ok(None),
    }
}

// With a file.
fn turning(alloc: Global, file: &[u8]) -> Result<Option<Step>, AllocError>
    ensures { IfOk result (λ step. step ≡ spec.turning file.now) }
{
    if file.is_empty() {
        return Ok(None);
    }
    with_path(alloc, file)
}

// With the file at a path, which is UTF-8.
fn with_path(alloc: Global, path: &[u8]) -> Result<Option<Step>, AllocError>
    ensures { IfOk result (λ step. step ≡ spec.with_path path.now) }
{
    match str::from_utf8(path) {
        Ok(text) => Ok(Some(Step::Turn(Some(Path::of(alloc, text)?)))),
        Err(_) => Ok(None),
    }
}

// A number of moves.
fn slicing(digits: &[u8]) -> Option<Step>
    ensures { result ≡ spec.slicing digits.now }
{
    match small(digits) {
        Some(count) => Some(Step::Slice(count)),
        None => None,
    }
}

// A number of bytes.
fn taking(digits: &[u8]) -> Option<Step>
    ensures { result ≡ spec.taking digits.now }
{
    match wide(digits) {
        Some(count) => Some(Step::Sent(count)),
        None => None,
    }
}

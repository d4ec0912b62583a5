//! Bytes that are taken apart.
ghost use Rattle.std.specs.Prelude.{◌≡◌, IfOk, OnOk, drop};
ghost use Rattle.framing.specs.Headers.{begins_with_end, end_of};
ghost use Rattle.framing.specs.Reading.{reading_of};
ghost use Rattle.framing.specs.Streams.{fed, nothing_fed};
ghost use Rattle.watch_command.specs.Conversing as spec;
ghost use Rattle.watch_command.specs.Private.Conversing as inner;
ghost use Rattle.watch_command.specs.Private.Conversing.{HasLeft};

use framing::{FrameError, Unframer};
use session::BODY_LIMIT;
use std::alloc::{AllocError, Global};
use std::cmp;

/// The most bytes that the body of a message may have.
const MESSAGE_LIMIT: u32 = 4_294_967_295;

/// What takes the bytes of a connection apart, before any came.
pub(crate) fn next_unframer(alloc: Global) -> Unframer
    ensures { result ≡ nothing_fed 1048576 }
{
    Unframer::new(alloc, BODY_LIMIT)
}

/// Takes a piece. It fails where no memory is left.
pub(crate) fn feed(unframer: &mut Unframer, piece: &[u8]) -> Result<(), AllocError>
    ensures { OnOk result (unframer.new ≡ fed unframer.old piece.now) }
{
    match unframer.feed(piece) {
        Err(FrameError::NoMemory) => Err(AllocError),
        _ => Ok(()),
    }
}

/// The bodies in bytes that were queued, where they wait to be taken. It fails where no memory is left.
pub(crate) fn bodies_of(alloc: Global, bytes: &[u8]) -> Result<Unframer, AllocError>
    ensures { IfOk result (λ unframer.
        unframer.waiting ≡ (reading_of 4294967295 bytes.now).bodies) }
{
    let mut unframer = Unframer::new(alloc, MESSAGE_LIMIT);
    match unframer.feed(bytes) {
        Err(FrameError::NoMemory) => Err(AllocError),
        _ => Ok(unframer),
    }
}

/// The bytes of a connection after its last whole frame; none where they continue as no frame can. It fails where no memory is left.
pub(crate) fn left_in(alloc: Global, bytes: &[u8]) -> Result<&[u8], AllocError>
    ensures { IfOk result (λ left.
        left.now ≡ spec.rest_of (reading_of 1048576 bytes.now).tail) }
{
    let mut unframer = next_unframer(alloc);
    match unframer.feed(bytes) {
        Ok(()) => Ok(after_frames(bytes, &mut unframer)),
        Err(FrameError::NoMemory) => Err(AllocError),
        Err(_) => Ok(b""),
    }
}

// The bytes after the frames of these bodies.
fn after_frames<'a>(bytes: &'a [u8], unframer: &mut Unframer) -> &'a [u8]
    requires { HasLeft bytes.now unframer.old.waiting (reading_of 1048576 bytes.now).tail }
    ensures { result.now ≡ spec.rest_of (reading_of 1048576 bytes.now).tail }
{
    let mut left = bytes;
    while let Some(body) = unframer.next_body() {
        left = after_frame(left, body.len());
    }
    left
}

// The bytes after a frame whose body has this length.
fn after_frame(bytes: &[u8], length: usize) -> &[u8]
    ensures { result.now ≡ inner.after_frame bytes.now length (end_of bytes.now) }
{
    match end_of(bytes) {
        Some(size) => after(bytes, size.saturating_add(length)),
        None => b"",
    }
}

// Where a header part ends: after the first CR LF CR LF.
fn end_of(bytes: &[u8]) -> Option<usize>
    ensures { result ≡ end_of bytes.now }
{
    for index in 0..bytes.len() {
        if begins_with_end(&bytes[index..]) {
            return Some(index + 4);
        }
    }
    None
}

fn begins_with_end(bytes: &[u8]) -> bool
    ensures { result ≡ begins_with_end bytes.now }
{
    if bytes.len() < 4 {
        return false;
    }
    bytes[0] == b'\r' && bytes[1] == b'\n' && bytes[2] == b'\r' && bytes[3] == b'\n'
}

/// The bytes after the first `count`.
pub(crate) fn after(bytes: &[u8], count: usize) -> &[u8]
    ensures { result.now ≡ drop count bytes.now }
{
    &bytes[cmp::min(count, bytes.len())..]
}

//! The bytes that are held, and room for them.

ghost use Rattle.std.specs.Prelude.{◌≡◌, ◌≤◌, ◌++◌, IfOk, OnErr, drop, vec_len, vec_capacity};

use crate::start::Start;
use std::alloc::AllocError;

/// Puts a piece after the bytes. The first `read` were read; where those are at least half, they are
/// dropped before: no more bytes stay, and have to move, than were read. It answers how many were
/// dropped. The one growth comes before any change: where it finds no memory, the bytes are as before.
pub(crate) fn append(bytes: &mut Vec<u8>, read: usize, piece: &[u8]) -> Result<usize, AllocError>
    requires { read ≤ vec_len bytes.old }
    ensures ok { IfOk result (λ dropped.
        (dropped ≤ read) × (bytes.new.items ≡ drop dropped bytes.old.items ++ piece.now)) }
    ensures err { OnErr result (bytes.new.items ≡ bytes.old.items) }
{
    let dropped = if read >= bytes.len() - read { read } else { 0 };
    bytes.reserve(piece.len().saturating_sub(dropped))?;
    drop_bytes(bytes, dropped);
    bytes.extend_from_slice(piece)?;
    Ok(dropped)
}

/// Drops the first bytes.
pub(crate) fn drop_bytes(bytes: &mut Vec<u8>, count: usize)
    requires { count ≤ vec_len bytes.old }
    ensures items { bytes.new.items ≡ drop count bytes.old.items }
    ensures capacity { vec_capacity bytes.new ≡ vec_capacity bytes.old }
{
    if count > 0 {
        bytes.drain(..count);
    }
}

/// Makes room for the rest of a frame with this start; `come` of its bytes are there. Where no memory
/// is left for that, there is less room: a piece of the frame may need no more.
pub(crate) fn reserve_rest(bytes: &mut Vec<u8>, start: Start, come: usize)
    ensures { bytes.new.items ≡ bytes.old.items }
{
    if let Start::Begins { header, content } = start {
        let _ = bytes.reserve(header.saturating_add(content).saturating_sub(come));
    }
}

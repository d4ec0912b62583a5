//! Room for the pieces that are read.
ghost use Rattle.std.specs.Prelude.{◌≡◌, ◌<◌, IfOk, vec_len};

use session::MOST_PIECE;
use std::alloc::{AllocError, Global};

/// Room for the bytes of one read: as many as a piece may have.
pub(crate) fn room_of(alloc: Global) -> Result<Vec<u8>, AllocError>
    ensures { IfOk result (λ room. vec_len room ≡ 65536) }
{
    zeros(alloc, MOST_PIECE)
}

// `count` bytes of 0. Their number is not looked at, which keeps the proof from writing them out.
fn zeros(alloc: Global, count: usize) -> Result<Vec<u8>, AllocError>
    ensures { IfOk result (λ bytes. vec_len bytes ≡ count) }
{
    vec![in alloc; 0u8; count]
}

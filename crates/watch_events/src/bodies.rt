//! The bodies of frames in some bytes.
ghost use Rattle.std.specs.Prelude.{◌≡◌, IfOk};
ghost use Rattle.framing.specs.Reading.{reading_of};

use framing::{FrameError, Unframer};
use std::alloc::{AllocError, Global};

/// The bodies in these bytes, each of at most `limit` bytes, where they wait to be taken. It fails where no memory is left.
pub(crate) fn bodies_of(alloc: Global, limit: u32, bytes: &[u8]) -> Result<Unframer, AllocError>
    ensures { IfOk result (λ unframer. unframer.waiting ≡ (reading_of limit bytes.now).bodies) }
{
    let mut unframer = Unframer::new(alloc, limit);
    match unframer.feed(bytes) {
        Err(FrameError::NoMemory) => Err(AllocError),
        _ => Ok(unframer),
    }
}

//! Feeding an unframer, with its faults apart from out of memory.
ghost use Rattle.std.specs.Prelude.{◌≡◌, IfOk, OnOk, OnErr};
ghost use Rattle.framing.specs.Streams.{fault_of, fed};

use framing::{FrameError, Unframer};
use std::alloc::AllocError;

/// Feeds a piece, and answers the fault of the stream so far, if it has one. Where no memory was
/// left, nothing was fed.
pub fn feed(unframer: &mut Unframer, piece: &[u8]) -> Result<Option<FrameError>, AllocError>
    ensures fed { OnOk result (unframer.new ≡ fed unframer.old piece.now) }
    ensures fault { IfOk result (λ fault. fault ≡ fault_of unframer.new.tail) }
    ensures err { OnErr result (unframer.new ≡ unframer.old) }
{
    match unframer.feed(piece) {
        Ok(()) => Ok(None),
        Err(fault) => match fault {
            FrameError::NoMemory => Err(AllocError),
            _ => Ok(Some(fault)),
        },
    }
}

//! The messages in some bytes.
ghost use Rattle.std.specs.Prelude.{◌≡◌, IfOk};
ghost use Rattle.framing.specs.Reading.{reading_of};
ghost use Rattle.mirror.specs.Streams.{messages_so_far};

use framing::{FrameError, Unframer};
use protocol::MessageError;
use replies::{Message, read_message};
use std::alloc::{AllocError, Global};

/// The most bytes that a body may have.
const BODY_LIMIT: u32 = 4_294_967_295;

/// The messages in these bytes, up to the first body that is none. It fails where no memory is left.
pub(crate) fn messages_in(alloc: Global, bytes: &[u8]) -> Result<Vec<Message>, AllocError>
    ensures { IfOk result (λ messages. messages.items ≡ messages_so_far bytes.now) }
{
    let mut unframer = bodies_of(alloc, bytes)?;
    let mut messages = Vec::new(alloc);
    while let Some(body) = unframer.next_body() {
        match read_message(alloc, body) {
            Ok((_, message)) => messages.push(message)?,
            Err(MessageError::NoMemory) => return Err(AllocError),
            Err(_) => return Ok(messages),
        }
    }
    Ok(messages)
}

// The bodies in these bytes, where they wait to be taken.
fn bodies_of(alloc: Global, bytes: &[u8]) -> Result<Unframer, AllocError>
    ensures { IfOk result (λ unframer. unframer.waiting ≡ (reading_of 4294967295 bytes.now).bodies) }
{
    let mut unframer = Unframer::new(alloc, BODY_LIMIT);
    match unframer.feed(bytes) {
        Err(FrameError::NoMemory) => Err(AllocError),
        _ => Ok(unframer),
    }
}

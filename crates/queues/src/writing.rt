//! A message as it is written.
ghost use Rattle.std.specs.Prelude.{◌≡◌, IfOk};
ghost use Rattle.queues.specs.Writing.{frame_of};

use framing::frame;
use replies::{Message, write_message};
use std::alloc::{AllocError, Global};

/// The frame of a message with its number (base protocol, "Content Part"; `ProtocolMessage.seq`). It fails where no memory is left.
#[tactic(auto, unfolding(crate::specs::Writing::frame_of))]
pub fn framed(alloc: Global, seq: u32, message: &Message) -> Result<Vec<u8>, AllocError>
    ensures { IfOk result (λ b. b.items ≡ frame_of seq message.now) }
{
    frame(alloc, &write_message(alloc, seq, message)?)
}

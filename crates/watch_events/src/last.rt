//! The last message in some bytes.
ghost use Rattle.std.specs.Prelude.{◌≡◌, IfOk, None, option_map};
ghost use Rattle.mirror.specs.Streams.{message_of, messages_so_far, stream_fault};
ghost use Rattle.session_laws.specs.News as spec;
ghost use Rattle.watch_events.specs.Private.Tracking.{SaidBy, last_from};

use crate::bodies::bodies_of;
use protocol::MessageError;
use replies::{Event, Message, read_message};
use std::alloc::{AllocError, Global};

/// The most bytes that a body may have.
pub(crate) const BODY_LIMIT: u32 = 4_294_967_295;

/// Whether the last message that is whole in these bytes of messages says what the program printed, or what a logpoint says; `None` where
/// none is whole. It fails where no memory is left.
pub(crate) fn last_message(alloc: Global, bytes: &[u8]) -> Result<Option<bool>, AllocError>
    ensures { stream_fault bytes.now ≡ None → IfOk result
        (λ last. last ≡ option_map spec.says_output (last_from None (messages_so_far bytes.now))) }
{
    let mut unframer = bodies_of(alloc, BODY_LIMIT, bytes)?;
    let mut last = None;
    while let Some(body) = unframer.next_body() {
        last = Some(says_output_in(alloc, body)?);
    }
    Ok(last)
}

// Whether the message that a body is says what the program printed, or what a logpoint says.
fn says_output_in(alloc: Global, body: &[u8]) -> Result<bool, AllocError>
    ensures { IfOk result (λ says. SaidBy (message_of body.now) says) }
{
    match read_message(alloc, body) {
        Ok((_, message)) => Ok(says_output(&message)),
        Err(MessageError::NoMemory) => Err(AllocError),
        Err(_) => Ok(false),
    }
}

// Whether a message says what the program printed, or what a logpoint says.
fn says_output(message: &Message) -> bool
    ensures { result ≡ spec.says_output message.now }
{
    match message {
        Message::Event(Event::Output(_)) => true,
        _ => false,
    }
}

//! The messages that came.
ghost use Rattle.std.specs.Prelude.{◌≡◌, IfOk, OnErr, OnOk, None, Some, [], fold, unwrap_or};
ghost use Rattle.framing.specs.Streams.{Before, Unframed, fault_of, fed};
ghost use Rattle.mirror.specs.Folding.{folded};
ghost use Rattle.mirror.specs.Kept.{at, facts_of};
ghost use Rattle.mirror.specs.Streams.{error_of, message_of, messages_of};

use crate::asked::Requests;
use crate::known::Known;
use crate::message;
use framing::{FrameError, Unframer};
use protocol::MessageError;
use replies::{Message, read_message};
use std::alloc::{AllocError, Global};

/// Takes the next piece of the stream, and answers the fault that the stream has then, if it has one. Where no memory is left,
/// nothing changes.
pub(crate) fn take_piece(
    unframer: &mut Unframer,
    piece: &[u8],
) -> Result<Option<FrameError>, AllocError>
    ensures fault { IfOk result (λ fault. fault ≡ fault_of unframer.new.tail) }
    ensures ok { OnOk result (unframer.new ≡ fed unframer.old piece.now) }
    ensures err { OnErr result (unframer.new ≡ unframer.old) }
{
    match unframer.feed(piece) {
        Ok(()) => Ok(None),
        Err(FrameError::NoMemory) => Err(AllocError),
        Err(fault) => Ok(Some(fault)),
    }
}

/// The facts after the bodies that wait, up to the first that is no message, and what that one has wrong. Where no memory is
/// left, the facts are as before, and the last piece of the stream is taken back.
pub(crate) fn take_news(
    alloc: Global,
    unframer: &mut Unframer,
    requests: &Requests,
    known: &mut Known,
) -> Result<Option<MessageError>, AllocError>
    ensures error { IfOk result (λ error. error ≡ error_of unframer.old.waiting) }
    ensures all_lent { IfOk result (λ error. error ≡ None → unframer.new.waiting ≡ []) }
    ensures facts { OnOk result (facts_of known.new
        ≡ fold (folded (at requests.now)) (facts_of known.old) (messages_of unframer.old.waiting)) }
    ensures tail { OnOk result (unframer.new.tail ≡ unframer.old.tail) }
    ensures limit { unframer.new.limit ≡ unframer.old.limit }
    ensures err { OnErr result (known.new ≡ known.old) }
    ensures back { OnErr result ((b : Before) → unframer.old.before ≡ Some b
        → (unframer.new.waiting ≡ b.waiting) × (unframer.new.tail ≡ b.tail)) }
{
    match read_news(alloc, unframer, requests, known) {
        Ok(News { known: next, error }) => {
            put(known, next);
            Ok(error)
        }
        Err(refused) => {
            unframer.retract();
            Err(refused)
        }
    }
}

// The facts take the place of others, if there are any.
fn put(known: &mut Known, next: Option<Known>)
    ensures { known.new ≡ unwrap_or next known.old }
{
    match next {
        Some(next) => *known = next,
        None => {}
    }
}

// The facts after the bodies that wait, or none where these are as before, and what the first body that is no message has wrong.
#[derive(Drop)]
struct News {
    pub known: Option<Known>,
    pub error: Option<MessageError>,
}

fn read_news(
    alloc: Global,
    unframer: &mut Unframer,
    requests: &Requests,
    known: &Known,
) -> Result<News, AllocError>
    ensures error { IfOk result (λ news. news.error ≡ error_of unframer.old.waiting) }
    ensures all_lent { IfOk result (λ news. news.error ≡ None → unframer.new.waiting ≡ []) }
    ensures facts { IfOk result (λ news. facts_of (unwrap_or news.known known.now)
        ≡ fold (folded (at requests.now)) (facts_of known.now) (messages_of unframer.old.waiting)) }
    ensures before { unframer.new.before ≡ unframer.old.before }
    ensures limit { unframer.new.limit ≡ unframer.old.limit }
    ensures tail { unframer.new.tail ≡ unframer.old.tail }
{
    let read = read_all(alloc, unframer)?;
    if read.messages.is_empty() {
        return Ok(News {
            known: None,
            error: read.error,
        });
    }
    let next = fold_all(alloc, requests, known, &read.messages)?;
    Ok(News {
        known: Some(next),
        error: read.error,
    })
}

// The facts after messages.
fn fold_all(
    alloc: Global,
    requests: &Requests,
    known: &Known,
    messages: &[Message],
) -> Result<Known, AllocError>
    ensures { IfOk result (λ next. facts_of next
        ≡ fold (folded (at requests.now)) (facts_of known.now) messages.now) }
{
    let mut next = known.copied(alloc)?;
    for message in messages {
        message::fold(alloc, requests, &mut next, message)?;
    }
    Ok(next)
}

// The messages in bodies, up to the first that is none, and what that one has wrong.
#[derive(Drop)]
struct Read {
    pub messages: Vec<Message>,
    pub error: Option<MessageError>,
}

// Reads the bodies that wait, up to the first that is no message.
fn read_all(alloc: Global, unframer: &mut Unframer) -> Result<Read, AllocError>
    ensures read { IfOk result (λ r. (r.messages.items ≡ messages_of unframer.old.waiting)
        × (r.error ≡ error_of unframer.old.waiting)
        × (r.error ≡ None → unframer.new.waiting ≡ [])) }
    ensures before { unframer.new.before ≡ unframer.old.before }
    ensures limit { unframer.new.limit ≡ unframer.old.limit }
    ensures tail { unframer.new.tail ≡ unframer.old.tail }
{
    let mut messages = Vec::new(alloc);
    while let Some(body) = unframer.next_body() {
        match message_in(alloc, body)? {
            Ok(message) => messages.push(message)?,
            Err(error) => {
                return Ok(Read {
                    messages,
                    error: Some(error),
                });
            }
        }
    }
    Ok(Read {
        messages,
        error: None,
    })
}

// The message that a body is, or why it is none.
fn message_in(alloc: Global, body: &[u8]) -> Result<Result<Message, MessageError>, AllocError>
    ensures { IfOk result (λ found. found ≡ message_of body.now) }
{
    match read_message(alloc, body) {
        Ok((_, message)) => Ok(Ok(message)),
        Err(MessageError::NoMemory) => Err(AllocError),
        Err(error) => Ok(Err(error)),
    }
}

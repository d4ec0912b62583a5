//! What a body means.
ghost use Rattle.std.specs.Prelude.{◌≡◌, Err, IfOk};
ghost use Rattle.std.specs.Str.{IsUtf8};
ghost use Rattle.serde_json.specs.View.{members_view, view};
ghost use Rattle.protocol.specs.Reading.{Gives, GivesMeaning, incoming_of, request_of, value_means};

use crate::command::command_named;
use crate::json::json_value;
use crate::properties::{property, sequence_number, text};
use crate::unread::Unread;
use crate::{Command, Refusal, Text, members};
use serde_json::{Map, Value};
use std::alloc::{AllocError, Global};
use thiserror::Error;

/// A request (`Request`).
#[derive(Drop)]
pub struct Request {
    /// The number that the editor gave it, from 0 to 2,147,483,647.
    pub seq: u32,
    /// What is asked.
    pub command: Command,
}

/// What a body is to the adapter.
#[derive(Drop)]
pub enum Incoming {
    /// A request that can be looked at further.
    Request(Request),
    /// A request of a name that the adapter lacks, or with arguments that it cannot take.
    Bad {
        /// The number that the editor gave it, from 0 to 2,147,483,647.
        seq: u32,
        /// The name that the editor gave.
        command: Text,
        /// `UnknownCommand` or `BadArguments`.
        refusal: Refusal,
    },
    /// A response or an event, which an editor has no reason to send.
    Ignored,
}

/// Why a body is no message.
#[derive(Clone, Copy, Debug, PartialEq, Eq, Error)]
pub enum MessageError {
    /// The body is no JSON text.
    #[error("not JSON")]
    NotJson,
    /// The JSON value is no message of the protocol.
    #[error("not a message")]
    NotAMessage,
    /// The request has no number from 0 to 2,147,483,647.
    #[error("bad sequence number")]
    BadSeq,
    /// No memory was left.
    #[error("no memory")]
    NoMemory,
}

impl From<AllocError> for MessageError {
    ghost use Rattle.protocol.specs.declared.request.MessageError.TheVariants.{NoMemory};

    ghost from_gives = { λ _ error. error ≡ NoMemory };

    fn from(_refused: AllocError) -> MessageError {
        MessageError::NoMemory
    }
}

/// What the body of a frame means (base protocol, "Content Part"; `ProtocolMessage`, `Request`): a
/// request, a request that is refused as it stands, or a message that is passed over.
///
/// The errors apply in this order. `NotJson`: the body is no JSON text (RFC 8259) in UTF-8, or
/// arrays and objects nest more than 127 deep in it. `NotAMessage`: it is no object; or its `type`
/// is not the text `request`, `response` or `event`; or it is a request whose `command` is no text.
/// `BadSeq`: it is a request whose `seq` is no whole number from 0 to 2,147,483,647. `NoMemory`: no
/// memory was left, for the JSON value or for a request; a body that is not UTF-8 takes none.
#[tactic(auto, unfolding(crate::specs::Reading::incoming_of))]
pub fn read_request(alloc: Global, body: &[u8]) -> Result<Incoming, MessageError>
    ensures means { Gives result (incoming_of body.now) }
    ensures memory { result ≡ Err MessageError.NoMemory → IsUtf8 body.now }
{
    let value = json_value(alloc, body)?;
    meaning_of(alloc, &value)
}

// What a JSON value means. Memory is needed for a request alone.
fn meaning_of(alloc: Global, value: &Value) -> Result<Incoming, MessageError>
    ensures { GivesMeaning result (value_means (view value.now)) }
{
    let message = value.as_object().ok_or(MessageError::NotAMessage)?;
    match text(message, members::TYPE).ok_or(MessageError::NotAMessage)? {
        members::REQUEST => incoming_request(alloc, message),
        members::RESPONSE | members::EVENT => Ok(Incoming::Ignored),
        _ => Err(MessageError::NotAMessage),
    }
}

/// What a request means, by the members of the message.
fn incoming_request(alloc: Global, message: &Map<String, Value>) -> Result<Incoming, MessageError>
    ensures { GivesMeaning result (request_of (members_view message.now.entries)) }
{
    let name = text(message, members::COMMAND).ok_or(MessageError::NotAMessage)?;
    let seq = sequence_number(message, members::SEQ).ok_or(MessageError::BadSeq)?;
    match command_named(alloc, name, property(message, members::ARGUMENTS)) {
        Ok(Some(command)) => Ok(Incoming::Request(Request { seq, command })),
        Ok(None) => Ok(bad(alloc, seq, name, Refusal::UnknownCommand)?),
        Err(Unread::Bad) => Ok(bad(alloc, seq, name, Refusal::BadArguments)?),
        Err(Unread::NoMemory) => Err(MessageError::NoMemory),
    }
}

/// A request that is refused as it stands.
fn bad(alloc: Global, seq: u32, name: &str, refusal: Refusal) -> Result<Incoming, AllocError>
    ensures { IfOk result (λ i. i ≡ Incoming.Bad seq name.now refusal) }
{
    let command = Text::from_string(String::from_str(alloc, name)?);
    Ok(Incoming::Bad {
        seq,
        command,
        refusal,
    })
}

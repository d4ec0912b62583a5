//! Messages: what the adapter sends, written and read.
ghost use Rattle.std.specs.Prelude.{◌≡◌, ◌⊎◌, ℕ, Some, IfOk};
ghost use Rattle.std.specs.Str.{IsUtf8};
ghost use Rattle.replies.specs.declared.message.Message.{Message as AMessage};
ghost use Rattle.protocol.specs.Json.{json_of};
ghost use Rattle.replies.specs.Messages.{message_data, text_of, IsNumber, IsProper};
ghost use Rattle.replies.specs.Reading.{ReadsAs, reading_of};

use crate::event::Event;
use crate::response::Response;
use crate::{reading, writing};
use protocol::json::json_value;
use protocol::{MessageError, Unread};
use std::alloc::{AllocError, Global};

/// What the adapter sends (`ProtocolMessage`).
#[derive(Drop)]
pub enum Message {
    /// An answer to a request (`Response`).
    Response(Response),
    /// What no request asked for (`Event`).
    Event(Event),
}

/// The message with this number as compact JSON in UTF-8, with no header (DAP base protocol,
/// "Content Part"). It fails where no memory is left.
pub fn write_message(alloc: Global, seq: u32, message: &Message) -> Result<Vec<u8>, AllocError>
    ensures text { IfOk result (λ b. b.items ≡ text_of seq message.now) }
    ensures value { IfOk result (λ b. json_of b.items ≡ Some (message_data seq message.now)) }
{
    writing::message(alloc, seq, message)
}

/// The number and the message that a body is (DAP base protocol, "Content Part").
///
/// `NotJson` where the body is no JSON text in UTF-8, `NotAMessage` where its value is that of no
/// message of the adapter with a number from 1 to 2,147,483,647, `NoMemory` where no memory is left.
/// Spaces and the order of members do not matter.
pub fn read_message(alloc: Global, body: &[u8]) -> Result<(u32, Message), MessageError>
    ensures reads { ReadsAs body.now result }
    ensures exact { (result ≡ reading_of body.now) ⊎ (result ≡ Err MessageError.NoMemory) }
    ensures written { (seq : ℕ) (message : AMessage) → IsNumber seq → IsProper message
        → json_of body.now ≡ Some (message_data seq message)
        → (result ≡ Ok (seq, message)) ⊎ (result ≡ Err MessageError.NoMemory) }
    ensures memory { result ≡ Err MessageError.NoMemory → IsUtf8 body.now }
{
    let value = json_value(alloc, body)?;
    match reading::message(alloc, &value) {
        Ok(found) => Ok(found),
        Err(Unread::Bad) => Err(MessageError::NotAMessage),
        Err(Unread::NoMemory) => Err(MessageError::NoMemory),
    }
}

//! Bytes in base64, with padding (RFC 4648, section 4).
ghost use Rattle.std.specs.Prelude.{OnOk, option_and_then};
ghost use Rattle.base64.specs.Engines.{standard};
ghost use Rattle.base64.specs.GeneralPurpose.{encode_of};
ghost use Rattle.protocol.specs.Arguments.{Reads};
ghost use Rattle.serde_json.specs.Data.{member, no_members, string};
ghost use Rattle.serde_json.specs.Find.{get};
ghost use Rattle.serde_json.specs.View.{view};
ghost use Rattle.message_parts.specs.EncodedBytes.{bytes_in, encoded_bytes};
ghost use Rattle.message_parts.specs.Written.{AreWritten, IsWritten};

use base64::DecodeAllocError;
use base64::engine::general_purpose::STANDARD;
use byte_strings::Bytes;
use json::Writer;
use protocol::Unread;
use serde_json::Value;
use std::alloc::{AllocError, Global};

/// Writes a member of this name that is bytes. It fails where no memory is left, and then the writer is of no more use.
pub fn member(alloc: Global, out: &mut Writer, name: &str, bytes: &Bytes) -> Result<(), AllocError>
    ensures { OnOk result (AreWritten out.old out.new
        (member name.now (encoded_bytes.value bytes.now) no_members)) }
{
    out.key(name)?;
    write(alloc, out, bytes.as_slice())
}

/// The member that is bytes; `Bad` where it is none.
pub(crate) fn find(alloc: Global, value: &Value, name: &str) -> Result<Bytes, Unread>
    ensures { Reads result (option_and_then encoded_bytes.found (get name.now (view value.now))) }
{
    let text = value.get(name).and_then(Value::as_str).ok_or(Unread::Bad)?;
    bytes_in(alloc, text)
}

/// Bytes as text.
fn write(alloc: Global, out: &mut Writer, bytes: &[u8]) -> Result<(), AllocError>
    ensures { OnOk result (IsWritten out.old out.new (string (encode_of standard bytes.now))) }
{
    let text = STANDARD.encode(alloc, bytes)?;
    out.string(text.as_str())
}

/// The bytes that a text spells; `Bad` where it spells none.
fn bytes_in(alloc: Global, text: &str) -> Result<Bytes, Unread>
    ensures { Reads result (bytes_in text.now) }
{
    match STANDARD.decode(alloc, text.as_bytes()) {
        Ok(bytes) => Ok(Bytes::from_vec(bytes)),
        Err(DecodeAllocError::DecodeError(_)) => Err(Unread::Bad),
        Err(DecodeAllocError::OutOfMemory) => Err(Unread::NoMemory),
    }
}

//! Bytes in base64.
ghost use Rattle.base64.specs.Engines.{standard};
ghost use Rattle.base64.specs.GeneralPurpose.{decoded_of};
ghost use Rattle.protocol.specs.Arguments.{Reads};

use crate::argument::{Argument, text};
use crate::unread::Unread;
use base64::DecodeAllocError;
use base64::engine::general_purpose::STANDARD;
use byte_strings::Bytes;
use serde_json::Value;
use std::alloc::Global;

/// Bytes, spelled in base64 with padding (RFC 4648, section 4).
impl Argument for Bytes {
    ghost use Rattle.protocol.specs.Arguments.{base64, IsText};

    ghost meaning = { base64 };

    ghost takes_memory = { IsText };

    fn read(alloc: Global, value: &Value) -> Result<Bytes, Unread> {
        decoded(alloc, text(value)?)
    }
}

/// The bytes that a text spells.
fn decoded(alloc: Global, text: &str) -> Result<Bytes, Unread>
    ensures { Reads result (decoded_of standard text.now) }
{
    match STANDARD.decode(alloc, text.as_bytes()) {
        Ok(bytes) => Ok(Bytes::from_vec(bytes)),
        Err(DecodeAllocError::DecodeError(_)) => Err(Unread::Bad),
        Err(DecodeAllocError::OutOfMemory) => Err(Unread::NoMemory),
    }
}

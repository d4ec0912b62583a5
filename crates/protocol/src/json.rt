//! The JSON value of a body.
ghost use Rattle.std.specs.Prelude.{◌≡◌, ◌≤◌, Err, IfOk};
ghost use Rattle.std.specs.Str.{IsUtf8};
ghost use Rattle.serde_json.specs.Data.{depth};
ghost use Rattle.serde_json.specs.Read.{max_depth};
ghost use Rattle.serde_json.specs.View.{view};
ghost use Rattle.protocol.specs.Json.{GivesValue, fault_of, json_of};

use crate::MessageError;
use serde_json::{Category, Value};
use std::alloc::Global;
use std::str;

/// What the body is as JSON (RFC 8259). `NotJson` where it is no JSON text in UTF-8, `NoMemory`
/// where no memory was left; a body that is not UTF-8 takes none.
pub fn json_value(alloc: Global, body: &[u8]) -> Result<Value, MessageError>
    ensures value { GivesValue result (json_of body.now) }
    ensures nests { IfOk result (λ v. depth (view v) ≤ max_depth) }
    ensures memory { result ≡ Err MessageError.NoMemory → IsUtf8 body.now }
{
    let Ok(text) = str::from_utf8(body) else {
        return Err(MessageError::NotJson);
    };
    match Value::from_str(alloc, text) {
        Ok(value) => Ok(value),
        Err(error) => Err(fault_of(error.classify())),
    }
}

// Why there is no value.
fn fault_of(category: Category) -> MessageError
    ensures { result ≡ fault_of category }
{
    match category {
        Category::Memory => MessageError::NoMemory,
        _ => MessageError::NotJson,
    }
}

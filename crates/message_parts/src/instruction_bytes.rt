//! The bytes of an instruction as text: low byte first, two hexadecimal digits each, single spaces
//! between.
ghost use Rattle.std.specs.Prelude.{◌≡◌, OnOk, option_and_then};
ghost use Rattle.protocol.specs.Arguments.{Reads};
ghost use Rattle.serde_json.specs.Data.{member, no_members, string};
ghost use Rattle.serde_json.specs.Find.{get};
ghost use Rattle.serde_json.specs.View.{view};
ghost use Rattle.message_parts.specs.InstructionBytes.{bytes_text, instruction_bytes, word_of_bytes};
ghost use Rattle.message_parts.specs.Written.{AreWritten, IsWritten};

use crate::address::{hex_digit, word_in};
use json::Writer;
use protocol::Unread;
use serde_json::Value;
use std::alloc::AllocError;
use std::str;

/// A member that is the bytes of a word. It fails where no memory is left, and then the writer is
/// of no more use.
pub(crate) fn member(out: &mut Writer, name: &str, word: u32) -> Result<(), AllocError>
    ensures { OnOk result (AreWritten out.old out.new
        (member name.now (instruction_bytes.value word) no_members)) }
{
    out.key(name)?;
    write(out, word)
}

/// The member that is the bytes of a word; `Bad` where it is none.
pub(crate) fn find(value: &Value, name: &str) -> Result<u32, Unread>
    ensures { Reads result (option_and_then instruction_bytes.found
        (get name.now (view value.now))) }
{
    let text = value.get(name).and_then(Value::as_str).ok_or(Unread::Bad)?;
    word_of_bytes(text.as_bytes()).ok_or(Unread::Bad)
}

/// The bytes of a word as text.
fn write(out: &mut Writer, word: u32) -> Result<(), AllocError>
    ensures { OnOk result (IsWritten out.old out.new (string (bytes_text word))) }
{
    match str::from_utf8(&text_of(word)) {
        Ok(text) => out.string(text),
        Err(_) => unreachable!(),
    }
}

fn text_of(word: u32) -> [u8; 11]
    ensures { result ≡ bytes_text word }
{
    [
        hex_digit(word >> 4 & 15),
        hex_digit(word & 15),
        b' ',
        hex_digit(word >> 12 & 15),
        hex_digit(word >> 8 & 15),
        b' ',
        hex_digit(word >> 20 & 15),
        hex_digit(word >> 16 & 15),
        b' ',
        hex_digit(word >> 28),
        hex_digit(word >> 24 & 15),
    ]
}

/// The word whose bytes a text is taken for.
#[tactic(auto, unfolding(crate::specs::InstructionBytes::word_of_bytes))]
fn word_of_bytes(text: &[u8]) -> Option<u32>
    ensures { result ≡ word_of_bytes text.now }
{
    match text {
        [a, b, _, c, d, _, e, f, _, g, h] => {
            word_in(&[b'0', b'x', *g, *h, *e, *f, *c, *d, *a, *b])
        }
        _ => None,
    }
}

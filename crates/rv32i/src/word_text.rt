//! The disassembly of words, of those too that are no instruction.

ghost use Rattle.std.specs.Prelude.{◌≡◌, string_bytes, IfOk};
ghost use Rattle.rv32i.specs.Texts.{word_text, IsTextOf};

use crate::decoding::decode;
use crate::text::{push_digits, text_of};
use std::alloc::{AllocError, Global};

/// The disassembly of a word at an address: the text of its instruction; and of a word that is illegal,
/// the word itself, as `.word 0x` and eight digits. `Err`: no memory was left.
pub fn text_of_word(alloc: Global, word: u32, pc: u32) -> Result<String, AllocError>
    ensures { IfOk result (λ text. IsTextOf word pc (string_bytes text)) }
{
    match decode(word) {
        Some(instr) => text_of(alloc, instr, pc),
        None => illegal(alloc, word),
    }
}

fn illegal(alloc: Global, word: u32) -> Result<String, AllocError>
    ensures { IfOk result (λ text. string_bytes text ≡ word_text word) }
{
    let mut text = String::from_str(alloc, ".word 0x")?;
    push_digits(&mut text, word)?;
    Ok(text)
}

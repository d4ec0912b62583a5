//! Words of instructions, and their disassembly.
//!
//! - `decode WORD`: the instruction, or `none`.
//! - `encode WORD`: the word of that instruction, or `none`; `destination WORD`: the number of the register that it writes, or `none`.
//! - `text WORD ADDRESS`: that instruction's disassembly at an address, or `none`; `word_text WORD ADDRESS`: any word's.
//! - `digits TEXT WORD`: the text with the word's digits after it.

use rv32i::{decode, destination, encode, push_digits, text_of, text_of_word};
use std::alloc::Global;
use testing::{Fault, called, none, parsed, shown};

/// What is answered of a word.
pub(crate) fn answer_word(alloc: Global, arguments: &[&str]) -> Result<String, Fault> {
    match arguments {
        ["decode", word] => decoded(alloc, parsed(word)?),
        ["encode", word] => encoded(alloc, parsed(word)?),
        ["destination", word] => written(alloc, parsed(word)?),
        ["text", word, address] => text(alloc, parsed(word)?, parsed(address)?),
        ["word_text", word, address] => {
            called(text_of_word(alloc, parsed(word)?, parsed(address)?))
        }
        ["digits", text, word] => {
            let mut text = String::from_str(alloc, text)?;
            called(push_digits(&mut text, parsed(word)?))?;
            Ok(text)
        }
        _ => Err(Fault::NoCommand),
    }
}

fn decoded(alloc: Global, word: u32) -> Result<String, Fault> {
    match decode(word) {
        Some(instr) => Ok(format!(in alloc; "{instr:?}")?),
        None => none(alloc),
    }
}

fn encoded(alloc: Global, word: u32) -> Result<String, Fault> {
    match decode(word) {
        Some(instr) => shown(alloc, encode(instr)),
        None => none(alloc),
    }
}

fn written(alloc: Global, word: u32) -> Result<String, Fault> {
    match decode(word) {
        Some(instr) => shown(alloc, destination(&instr).number()),
        None => none(alloc),
    }
}

fn text(alloc: Global, word: u32, address: u32) -> Result<String, Fault> {
    match decode(word) {
        Some(instr) => called(text_of(alloc, instr, address)),
        None => none(alloc),
    }
}

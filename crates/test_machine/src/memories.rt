//! Memory.
//!
//! - `new SIZE`: memory of SIZE bytes.
//! - `byte ADDRESS`, `half ADDRESS`, `word ADDRESS`: the value; `none` or a fault.
//! - `word_bytes ADDRESS`: the bytes of the word, or a fault.
//! - `read ADDRESS BYTES`: the outcome, and what the bytes then are that are read into.
//! - `write_byte ADDRESS VALUE`, `write_half`, `write_word`; `write ADDRESS BYTES`.
//! - `once COMMAND`: the same, and not made again where it found no memory.

use image::{MemFault, Memory};
use std::alloc::Global;
use std::fmt::Display;
use testing::{Fault, bytes_of, called, found, hexadecimal, once, parsed, shown};

/// Memory of `size` bytes.
pub(crate) fn new_memory(alloc: Global, size: &str) -> Result<Memory, Fault> {
    let size: u32 = parsed(size)?;
    if size % 4096 != 0 || size < 4096 || size > 16_777_216 {
        return Err(Fault::NoCommand);
    }
    called(Memory::new(alloc, 65536, size))
}

/// What memory answers.
pub(crate) fn answer_memory(
    alloc: Global,
    memory: &mut Memory,
    arguments: &[&str],
) -> Result<String, Fault> {
    match arguments {
        ["once", rest @ ..] => once(alloc, asked(alloc, memory, rest)),
        arguments => asked(alloc, memory, arguments),
    }
}

fn asked(alloc: Global, memory: &mut Memory, arguments: &[&str]) -> Result<String, Fault> {
    match arguments {
        ["byte", address] => found(alloc, memory.byte(parsed(address)?)),
        ["half", address] => value(alloc, memory.half(parsed(address)?)),
        ["word", address] => value(alloc, memory.word(parsed(address)?)),
        ["word_bytes", address] => word_bytes(alloc, memory, parsed(address)?),
        ["read", address, bytes] => read(alloc, memory, parsed(address)?, bytes),
        ["write_byte", address, value] => {
            done(alloc, memory.write_byte(parsed(address)?, parsed(value)?))
        }
        ["write_half", address, value] => {
            done(alloc, memory.write_half(parsed(address)?, parsed(value)?))
        }
        ["write_word", address, value] => {
            done(alloc, memory.write_word(parsed(address)?, parsed(value)?))
        }
        ["write", address, bytes] => {
            let bytes = bytes_of(alloc, bytes)?;
            done(alloc, memory.write(parsed(address)?, &bytes))
        }
        _ => Err(Fault::NoCommand),
    }
}

fn value<D: Display + Drop>(alloc: Global, answer: Result<D, MemFault>) -> Result<String, Fault> {
    match answer {
        Ok(value) => shown(alloc, value),
        Err(fault) => failed(alloc, fault),
    }
}

fn done(alloc: Global, answer: Result<(), MemFault>) -> Result<String, Fault> {
    match answer {
        Ok(()) => shown(alloc, "ok"),
        Err(fault) => failed(alloc, fault),
    }
}

fn failed(alloc: Global, fault: MemFault) -> Result<String, Fault> {
    match fault {
        MemFault::Misaligned => shown(alloc, "Misaligned"),
        MemFault::Outside => shown(alloc, "Outside"),
        MemFault::NoMemory => Err(Fault::NoMemoryInCall),
    }
}

fn word_bytes(alloc: Global, memory: &Memory, address: u32) -> Result<String, Fault> {
    match memory.word_bytes(address) {
        Ok(bytes) => hexadecimal(alloc, &bytes),
        Err(fault) => failed(alloc, fault),
    }
}

fn read(alloc: Global, memory: &Memory, address: u32, bytes: &str) -> Result<String, Fault> {
    let mut bytes = bytes_of(alloc, bytes)?;
    let mut answer = done(alloc, memory.read(address, &mut bytes))?;
    answer.push(' ')?;
    answer.push_str(hexadecimal(alloc, &bytes)?.as_str())?;
    Ok(answer)
}

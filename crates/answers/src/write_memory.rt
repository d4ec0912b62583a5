//! `writeMemory`: bytes of memory are written.

ghost use Rattle.std.specs.Prelude.{◌≡◌, ◌≤◌, IfOk, IsTrue, None, length};
ghost use Rattle.answers.specs.ReadMemory.{can_begin};
ghost use Rattle.answers.specs.WriteMemory as spec;
ghost use Rattle.image.specs.Memory.{fault_at};

use crate::read_memory::{MOST, start_at};
use image::Memory;
use numerals::{offset_by, word};
use protocol::{Refusal, WriteMemoryArguments};
use replies::{ResponseBody, WriteMemory};

/// What is answered, and which of the request's bytes are to be written.
#[derive(Drop)]
pub struct Writing {
    /// The body of the success.
    pub body: ResponseBody,
    /// The address of the first byte.
    pub address: u32,
    /// How many of the bytes are to be written, the first of them first.
    pub count: u32,
}

/// The body of the success and what is to be written, or the refusal. Nothing is written yet.
///
/// - `BadMemoryReference`: the reference is neither `0x` and 1 to 8 hexadecimal digits nor decimal digits that write at most
///   4,294,967,295.
/// - `TooMuch`: else there are more than 65,536 bytes.
/// - `OutsideMemory`: else the address is no number from 0 to 4,294,967,295, or it is not in memory and there is a byte to write, or the
///   last byte would be outside memory and the request does not allow that only the others are written.
///
/// It takes no memory.
pub fn answer(arguments: &WriteMemoryArguments, memory: &Memory) -> Result<Writing, Refusal>
    ensures answer { result ≡ spec.write_memory arguments.now memory.now }
    ensures few { IfOk result (λ writing. writing.count ≤ length arguments.now.bytes) }
    ensures fits { IfOk result
        (λ writing. fault_at memory.now 1 writing.address writing.count ≡ None) }
{
    let address = start(arguments, memory)?;
    let count = arguments.bytes.as_slice().len() as u32;
    written_at(memory, arguments.allow_partial, count, address)
}

// The address of the first byte, or the refusal.
fn start(arguments: &WriteMemoryArguments, memory: &Memory) -> Result<u32, Refusal>
    ensures start { result ≡ spec.start memory.now arguments.now }
    ensures few { IfOk result (λ address. length arguments.now.bytes ≤ 65536) }
    ensures begins { IfOk result
        (λ address. IsTrue (can_begin memory.now (length arguments.now.bytes) address)) }
{
    start_by(
        arguments,
        memory,
        word(arguments.memory_reference.as_str().as_bytes()),
    )
}

fn start_by(
    arguments: &WriteMemoryArguments,
    memory: &Memory,
    reference: Option<u32>,
) -> Result<u32, Refusal>
    ensures start { result ≡ spec.start_by memory.now arguments.now reference }
    ensures few { IfOk result (λ address. length arguments.now.bytes ≤ 65536) }
    ensures begins { IfOk result
        (λ address. IsTrue (can_begin memory.now (length arguments.now.bytes) address)) }
{
    match reference {
        None => Err(Refusal::BadMemoryReference),
        Some(_) => {
            let count = arguments.bytes.as_slice().len();
            if count > MOST as usize {
                return Err(Refusal::TooMuch);
            }
            start_at(memory, count as u32, offset_by(arguments.offset, reference))
        }
    }
}

// What is written from there on.
fn written_at(memory: &Memory, partial: bool, count: u32, address: u32) -> Result<Writing, Refusal>
    requires { IsTrue (can_begin memory.now count address) }
    ensures written { result ≡ spec.written_at memory.now partial count address }
    ensures few { IfOk result (λ writing. writing.count ≤ count) }
    ensures fits { IfOk result
        (λ writing. fault_at memory.now 1 writing.address writing.count ≡ None) }
{
    let fitting = fitting(memory, count, address);
    if fitting == count || partial {
        Ok(writing_of(address, fitting))
    } else {
        Err(Refusal::OutsideMemory)
    }
}

fn writing_of(address: u32, count: u32) -> Writing
    ensures { result ≡ spec.writing_of address count }
{
    Writing {
        body: ResponseBody::WriteMemory(WriteMemory {
            bytes_written: count,
        }),
        address,
        count,
    }
}

// How many of `count` bytes fit into memory.
fn fitting(memory: &Memory, count: u32, address: u32) -> u32
    requires { IsTrue (can_begin memory.now count address) }
    ensures fitting { result ≡ spec.fitting memory.now count address }
    ensures few { result ≤ count }
    ensures fits { fault_at memory.now 1 address result ≡ None }
{
    for index in 0..count {
        match address.checked_add(index) {
            Some(place) if memory.byte(place).is_some() => {}
            _ => return index,
        }
    }
    count
}

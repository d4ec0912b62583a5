//! `readMemory`: bytes of memory.

ghost use Rattle.std.specs.Prelude.{◌≡◌, ◌≤◌, IfOk, IsOk, IsTrue, OnErr};
ghost use Rattle.answers.specs.ReadMemory as spec;

use image::{Bytes, Memory};
use numerals::{offset_by, word};
use protocol::{ReadMemoryArguments, Refusal};
use replies::{ReadMemory, ResponseBody};
use std::alloc::{AllocError, Global};

/// The most bytes that one request may ask for.
pub(crate) const MOST: u32 = 65_536;

/// The body of the success, or the refusal. The bytes are those from the address on that the reference and the offset come to; where
/// memory ends before the last of them, there are fewer, and the body says how many are missing.
///
/// - `BadMemoryReference`: the reference is neither `0x` and 1 to 8 hexadecimal digits nor decimal digits that write at most
///   4,294,967,295.
/// - `TooMuch`: else more than 65,536 bytes are asked for.
/// - `OutsideMemory`: else the address is no number from 0 to 4,294,967,295, or it is not in memory and some byte is asked for.
///
/// `Err`: no memory was left; a refusal takes none.
pub fn answer(
    alloc: Global,
    arguments: &ReadMemoryArguments,
    memory: &Memory,
) -> Result<Result<ResponseBody, Refusal>, AllocError>
    ensures answer { IfOk result (λ answer. answer ≡ spec.read_memory memory.now arguments.now) }
    ensures granted { OnErr result (IsOk (spec.read_memory memory.now arguments.now)) }
{
    match start(arguments, memory) {
        Err(refusal) => Ok(Err(refusal)),
        Ok(address) => Ok(Ok(body_at(alloc, memory, arguments.count, address)?)),
    }
}

// The address of the first byte, or the refusal.
fn start(arguments: &ReadMemoryArguments, memory: &Memory) -> Result<u32, Refusal>
    ensures { result ≡ spec.start memory.now arguments.now }
{
    start_by(
        arguments,
        memory,
        word(arguments.memory_reference.as_str().as_bytes()),
    )
}

fn start_by(
    arguments: &ReadMemoryArguments,
    memory: &Memory,
    reference: Option<u32>,
) -> Result<u32, Refusal>
    ensures { result ≡ spec.start_by memory.now arguments.now reference }
{
    match reference {
        None => Err(Refusal::BadMemoryReference),
        Some(_) => {
            if arguments.count > MOST {
                return Err(Refusal::TooMuch);
            }
            start_at(
                memory,
                arguments.count,
                offset_by(arguments.offset, reference),
            )
        }
    }
}

pub(crate) fn start_at(memory: &Memory, count: u32, address: Option<u32>) -> Result<u32, Refusal>
    ensures { result ≡ spec.start_at memory.now count address }
{
    match address {
        None => Err(Refusal::OutsideMemory),
        Some(address) => {
            if count == 0 || memory.byte(address).is_some() {
                Ok(address)
            } else {
                Err(Refusal::OutsideMemory)
            }
        }
    }
}

fn body_at(
    alloc: Global,
    memory: &Memory,
    count: u32,
    address: u32,
) -> Result<ResponseBody, AllocError>
    requires { IsTrue (spec.can_begin memory.now count address) }
    ensures { IfOk result (λ body. body ≡ spec.body_at memory.now count address) }
{
    let bytes = bytes_from(alloc, memory, count, address)?;
    let unreadable_bytes = count - bytes.len() as u32;
    Ok(ResponseBody::ReadMemory(ReadMemory {
        address,
        bytes: Bytes::from_vec(bytes),
        unreadable_bytes,
    }))
}

// The bytes from an address on, at most `count`.
fn bytes_from(
    alloc: Global,
    memory: &Memory,
    count: u32,
    address: u32,
) -> Result<Vec<u8>, AllocError>
    requires { IsTrue (spec.can_begin memory.now count address) }
    ensures { IfOk result (λ bytes. bytes.items ≡ spec.bytes_from memory.now count address) }
{
    let mut bytes = Vec::with_capacity(alloc, count as usize)?;
    for index in 0..count {
        let Some(place) = address.checked_add(index) else {
            return Ok(bytes);
        };
        match memory.byte(place) {
            Some(byte) => bytes.push(byte)?,
            None => return Ok(bytes),
        }
    }
    Ok(bytes)
}

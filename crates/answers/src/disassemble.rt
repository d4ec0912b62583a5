//! `disassemble`: the instructions from a place on.

ghost use Rattle.std.specs.Prelude.{◌≡◌, ◌≤◌, ◌≤ℤ◌, ◌^◌, pos, neg_ℤ, IfOk, IsOk, OnErr};
ghost use Rattle.answers.specs.Disassemble as spec;
ghost use Rattle.numerals.specs.MemoryReferences.{address_of};

use image::Memory;
use numerals::word;
use protocol::{DisassembleArguments, Entries, Refusal, Text};
use replies::{Disassemble, Instruction, ResponseBody};
use rv32i::text_of_word;
use std::alloc::{AllocError, Global};

/// The most instructions that one request may ask for.
const MOST: u32 = 4096;

/// The body of the success, or the refusal. The first entry is for the place that the reference, the offset, and 4 for each
/// instruction of the instruction offset come to, and each further one for the place 4 above that of the one before it. Where no word
/// of memory is at a place, its entry says so.
///
/// - `BadMemoryReference`: the reference is neither `0x` and 1 to 8 hexadecimal digits nor decimal digits that write at most
///   4,294,967,295.
/// - `TooMuch`: else more than 4,096 instructions are asked for.
///
/// `Err`: no memory was left; a refusal takes none.
pub fn answer(
    alloc: Global,
    arguments: &DisassembleArguments,
    memory: &Memory,
) -> Result<Result<ResponseBody, Refusal>, AllocError>
    ensures answer { IfOk result (λ answer. answer ≡ spec.disassemble memory.now arguments.now) }
    ensures granted { OnErr result (IsOk (spec.disassemble memory.now arguments.now)) }
{
    match word(arguments.memory_reference.as_str().as_bytes()) {
        None => Ok(Err(Refusal::BadMemoryReference)),
        Some(reference) => {
            if arguments.instruction_count > MOST {
                return Ok(Err(Refusal::TooMuch));
            }
            let instructions = entries_from(
                alloc,
                memory,
                first_place(reference, arguments.offset, arguments.instruction_offset),
                arguments.instruction_count,
            )?;
            Ok(Ok(ResponseBody::Disassemble(Disassemble {
                instructions: Entries::from_vec(instructions),
            })))
        }
    }
}

// The place of the first instruction.
fn first_place(reference: u32, offset: i32, instructions: i32) -> i64
    ensures place { result ≡ spec.first_place reference offset instructions }
    ensures low { neg_ℤ (pos (2 ^ 35)) ≤ℤ result }
    ensures high { result ≤ℤ pos (2 ^ 35) }
{
    i64::from(reference) + i64::from(offset) + 4 * i64::from(instructions)
}

// `count` entries from a place on.
fn entries_from(
    alloc: Global,
    memory: &Memory,
    first: i64,
    count: u32,
) -> Result<Vec<Instruction>, AllocError>
    requires low { neg_ℤ (pos (2 ^ 35)) ≤ℤ first }
    requires high { first ≤ℤ pos (2 ^ 35) }
    requires few { count ≤ 4096 }
    ensures { IfOk result (λ entries. entries.items ≡ spec.entries_from memory.now first count) }
{
    let mut entries = Vec::with_capacity(alloc, count as usize)?;
    for index in 0..count {
        entries.push(entry(alloc, memory, first + 4 * i64::from(index))?)?;
    }
    Ok(entries)
}

// What is at a place.
fn entry(alloc: Global, memory: &Memory, place: i64) -> Result<Instruction, AllocError>
    ensures { IfOk result (λ entry. entry ≡ spec.entry memory.now place) }
{
    let address = wrapped(place);
    match word_in(memory, address_of(place)) {
        None => Ok(Instruction::Invalid { address }),
        Some(word) => valid(alloc, address, word),
    }
}

fn valid(alloc: Global, address: u32, word: u32) -> Result<Instruction, AllocError>
    ensures { IfOk result (λ entry. entry ≡ spec.entry_by address (Some word)) }
{
    let text = text_of_word(alloc, word, address)?;
    Ok(Instruction::Valid {
        address,
        instruction: Text::from_string(text),
        instruction_bytes: word,
    })
}

// The word at an address, where there is one.
fn word_in(memory: &Memory, address: Option<u32>) -> Option<u32>
    ensures { result ≡ spec.word_in memory.now address }
{
    match address {
        None => None,
        Some(address) => memory.word(address).ok(),
    }
}

// The address that a place is, if it is one.
fn address_of(place: i64) -> Option<u32>
    ensures { result ≡ address_of place }
{
    u32::try_from(place).ok()
}

// A place modulo 2^32.
fn wrapped(place: i64) -> u32
    ensures { result ≡ spec.wrapped place }
{
    place.rem_euclid(1 << 32) as u32
}

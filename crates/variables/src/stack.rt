//! The words of the stack as variables.

ghost use Rattle.std.specs.Prelude.{◌≡◌, ◌<◌, ◌≤◌, ◌+◌, IfOk, slice_index};
ghost use Rattle.variables.specs.Stack.{name_at, stack_words, word};
ghost use Rattle.variables.specs.Private.Stack.{word_anywhere};

use image::Memory;
use protocol::Text;
use replies::Variable;
use rv32i::Hart;
use std::alloc::{AllocError, Global};

/// The register that points to the stack.
const SP: usize = 2;

/// The most words that are listed.
const WORDS: u32 = 64;

/// The words on top of the stack: `sp+0`, `sp+4` and on, the little-endian words at these addresses, while all four bytes lie in memory,
/// and at most 64. The stack pointer need be no multiple of 4. It fails where no memory is left.
pub fn stack_words(alloc: Global, hart: &Hart, memory: &Memory) -> Result<Vec<Variable>, AllocError>
    ensures { IfOk result (λ words. words.items ≡ stack_words hart.now memory.now) }
{
    let sp = hart.x[SP];
    let mut words = Vec::new(alloc);
    for number in 0..WORDS {
        match word_anywhere(memory, sp.wrapping_add(4 * number)) {
            None => return Ok(words),
            Some(value) => words.push(variable_at(alloc, 4 * number, value)?)?,
        }
    }
    Ok(words)
}

// The word at any address.
fn word_anywhere(memory: &Memory, address: u32) -> Option<u32>
    ensures { result ≡ word_anywhere memory.now address }
{
    let mut bytes = [0; 4];
    match memory.read(address, &mut bytes) {
        Ok(()) => Some(u32::from_le_bytes(bytes)),
        Err(_) => None,
    }
}

// The variable of the word `offset` bytes above the stack pointer.
fn variable_at(alloc: Global, offset: u32, value: u32) -> Result<Variable, AllocError>
    ensures { IfOk result (λ variable. variable ≡ record { name = name_at offset; value = value }) }
{
    Ok(Variable {
        name: Text::from_string(format!(in alloc; "sp+{offset}")?),
        value,
    })
}

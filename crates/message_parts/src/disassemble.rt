//! The body that answers `disassemble`: the instructions at an address.

use crate::members::{ADDRESS, INSTRUCTION, INSTRUCTION_BYTES, INSTRUCTIONS, PRESENTATION_HINT};
use crate::part::Part;
use crate::{find, instruction_bytes, member};
use json::Writer;
use protocol::{Entries, Text, Unread};
use serde_json::Value;
use std::alloc::{AllocError, Global};

/// The instructions at an address (`DisassembleResponse`).
#[derive(Drop)]
pub struct Disassemble {
    /// The instructions, at rising addresses, four bytes each.
    pub instructions: Entries<Instruction>,
}

/// What is at an address (`DisassembledInstruction`).
#[derive(Drop)]
pub enum Instruction {
    /// A word of memory.
    Valid {
        /// Its address.
        address: u32,
        /// Its text: an instruction, or `.word` and the word where it is none.
        instruction: Text,
        /// The word; its low byte is the first in memory.
        instruction_bytes: u32,
    },
    /// No word: outside of memory, or at no multiple of 4.
    Invalid {
        /// The address.
        address: u32,
    },
}

/// What an entry without a word has in place of its text.
const NO_INSTRUCTION: &str = "(invalid)";
/// What an editor may show of an entry without a word.
const INVALID_HINT: &str = "invalid";

impl Part for Disassemble {
    ghost use Rattle.message_parts.specs.Disassemble.{disassemble};

    ghost form = { disassemble };

    fn write(&self, out: &mut Writer) -> Result<(), AllocError> {
        out.begin_object()?;
        member::part(out, INSTRUCTIONS, &self.instructions)?;
        out.end_object()
    }

    fn read(alloc: Global, value: &Value) -> Result<Disassemble, Unread> {
        Ok(Disassemble {
            instructions: find::part(alloc, value, INSTRUCTIONS)?,
        })
    }
}

impl Part for Instruction {
    ghost use Rattle.message_parts.specs.Disassemble.{instruction};

    ghost form = { instruction };

    fn write(&self, out: &mut Writer) -> Result<(), AllocError> {
        match self {
            Instruction::Valid {
                address,
                instruction,
                instruction_bytes,
            } => {
                out.begin_object()?;
                member::address(out, ADDRESS, *address)?;
                member::text(out, INSTRUCTION, instruction.as_str())?;
                instruction_bytes::member(out, INSTRUCTION_BYTES, *instruction_bytes)?;
                out.end_object()
            }
            Instruction::Invalid { address } => {
                out.begin_object()?;
                member::address(out, ADDRESS, *address)?;
                member::text(out, INSTRUCTION, NO_INSTRUCTION)?;
                member::text(out, PRESENTATION_HINT, INVALID_HINT)?;
                out.end_object()
            }
        }
    }

    fn read(alloc: Global, value: &Value) -> Result<Instruction, Unread> {
        match value.get(PRESENTATION_HINT) {
            None => Ok(Instruction::Valid {
                address: find::address(value, ADDRESS)?,
                instruction: find::text(alloc, value, INSTRUCTION)?,
                instruction_bytes: instruction_bytes::find(value, INSTRUCTION_BYTES)?,
            }),
            Some(_) => Ok(Instruction::Invalid {
                address: find::address(value, ADDRESS)?,
            }),
        }
    }
}

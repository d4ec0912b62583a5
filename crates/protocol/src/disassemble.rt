//! The request `disassemble`: the instructions at an address.
ghost use Rattle.std.specs.Prelude.{◌≡◌, Err};
ghost use Rattle.serde_json.specs.View.{members_view};
ghost use Rattle.protocol.specs.Arguments.{IsText, MayTakeMemory, Reads};
ghost use Rattle.protocol.specs.Properties.{property};
ghost use Rattle.protocol.specs.Disassemble.{disassemble_arguments};

use crate::Text;
use crate::argument::{optional, required};
use crate::members::{MEMORY_REFERENCE, OFFSET};
use crate::unread::Unread;
use serde_json::{Map, Value};
use std::alloc::Global;

/// The request's name.
pub const NAME: &str = "disassemble";

/// What is added to the address, in instructions (`DisassembleArguments.instructionOffset`).
pub const INSTRUCTION_OFFSET: &str = "instructionOffset";
/// How many instructions (`DisassembleArguments.instructionCount`).
pub const INSTRUCTION_COUNT: &str = "instructionCount";

/// Which instructions are asked for (`DisassembleArguments`).
#[derive(Drop)]
pub struct DisassembleArguments {
    /// The address, as the editor writes it.
    pub memory_reference: Text,
    /// What is added to it, in bytes, from -2,147,483,648 to 2,147,483,647. Absent: 0.
    pub offset: i32,
    /// What is added to that, in instructions, from -2,147,483,648 to 2,147,483,647. Absent: 0.
    pub instruction_offset: i32,
    /// How many instructions, from 0 to 2,147,483,647.
    pub instruction_count: u32,
}

/// The arguments; `Bad` where `memoryReference` is absent or no text; where `instructionCount` is
/// absent or no whole number from 0 to 2,147,483,647; or where `offset` or `instructionOffset` is
/// there and is no whole number from -2,147,483,648 to 2,147,483,647.
pub(crate) fn arguments(
    alloc: Global,
    members: &Map<String, Value>,
) -> Result<DisassembleArguments, Unread>
    ensures reads { Reads result (disassemble_arguments (members_view members.now.entries)) }
    ensures memory { result ≡ Err Unread.NoMemory → MayTakeMemory IsText
        (property MEMORY_REFERENCE.now (members_view members.now.entries)) }
{
    Ok(DisassembleArguments {
        memory_reference: required(alloc, members, MEMORY_REFERENCE)?,
        offset: optional(alloc, members, OFFSET)?.unwrap_or(0),
        instruction_offset: optional(alloc, members, INSTRUCTION_OFFSET)?.unwrap_or(0),
        instruction_count: required(alloc, members, INSTRUCTION_COUNT)?,
    })
}

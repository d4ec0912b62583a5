//! The request `setInstructionBreakpoints`: the breakpoints at addresses.
ghost use Rattle.std.specs.Prelude.{◌≡◌, Err};
ghost use Rattle.serde_json.specs.View.{members_view};
ghost use Rattle.protocol.specs.Arguments.{IsList, MayTakeMemory, Reads};
ghost use Rattle.protocol.specs.Properties.{property};
ghost use Rattle.protocol.specs.SetInstructionBreakpoints.{set_instruction_breakpoints_arguments};

use crate::argument::{Argument, object, optional, required};
use crate::members::{BREAKPOINTS, CONDITION, HIT_CONDITION, OFFSET};
use crate::unread::Unread;
use crate::{Entries, Text};
use serde_json::{Map, Value};
use std::alloc::Global;

/// The request's name.
pub const NAME: &str = "setInstructionBreakpoints";

/// A breakpoint's address (`InstructionBreakpoint.instructionReference`).
pub const INSTRUCTION_REFERENCE: &str = "instructionReference";

/// All breakpoints at addresses (`SetInstructionBreakpointsArguments`).
#[derive(Drop)]
pub struct SetInstructionBreakpointsArguments {
    /// The breakpoints, in the editor's order.
    pub breakpoints: Entries<InstructionBreakpoint>,
}

/// A breakpoint at an address (`InstructionBreakpoint`).
#[derive(Drop)]
pub struct InstructionBreakpoint {
    /// The address, as the editor writes it.
    pub instruction_reference: Text,
    /// What is added to it, in bytes, from -2,147,483,648 to 2,147,483,647. Absent: 0.
    pub offset: i32,
    /// The expression under which it is hit.
    pub condition: Option<Text>,
    /// Which of its hits stops.
    pub hit_condition: Option<Text>,
}

impl Argument for InstructionBreakpoint {
    ghost use Rattle.protocol.specs.Arguments.{IsObject};
    ghost use Rattle.protocol.specs.SetInstructionBreakpoints.{instruction_breakpoint};

    ghost meaning = { instruction_breakpoint };

    ghost takes_memory = { IsObject };

    fn read(alloc: Global, value: &Value) -> Result<InstructionBreakpoint, Unread> {
        let members = object(value)?;
        Ok(InstructionBreakpoint {
            instruction_reference: required(alloc, members, INSTRUCTION_REFERENCE)?,
            offset: optional(alloc, members, OFFSET)?.unwrap_or(0),
            condition: optional(alloc, members, CONDITION)?,
            hit_condition: optional(alloc, members, HIT_CONDITION)?,
        })
    }
}

/// The arguments; `Bad` where `breakpoints` is absent or no list of objects; where one of these has
/// no `instructionReference`, or one that is no text; where an `offset` is no whole number from
/// -2,147,483,648 to 2,147,483,647; or where a condition is no text.
pub(crate) fn arguments(
    alloc: Global,
    members: &Map<String, Value>,
) -> Result<SetInstructionBreakpointsArguments, Unread>
    ensures reads { Reads result
        (set_instruction_breakpoints_arguments (members_view members.now.entries)) }
    ensures memory { result ≡ Err Unread.NoMemory → MayTakeMemory IsList
        (property BREAKPOINTS.now (members_view members.now.entries)) }
{
    Ok(SetInstructionBreakpointsArguments {
        breakpoints: required(alloc, members, BREAKPOINTS)?,
    })
}

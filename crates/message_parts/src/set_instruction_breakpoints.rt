//! The body that answers `setInstructionBreakpoints`: what became of each breakpoint.

use crate::members::{BREAKPOINTS, ID, INSTRUCTION_REFERENCE, MESSAGE, VERIFIED};
use crate::part::Part;
use crate::{find, member};
use json::Writer;
use protocol::{Entries, Text, Unread};
use serde_json::Value;
use std::alloc::{AllocError, Global};

/// What became of the breakpoints at instructions (`SetInstructionBreakpointsResponse`).
#[derive(Drop)]
pub struct SetInstructionBreakpoints {
    /// What became of each, in the order in which they were asked for.
    pub breakpoints: Entries<InstructionBreakpoint>,
}

/// What became of a breakpoint at an instruction (`Breakpoint`).
#[derive(Drop)]
pub enum InstructionBreakpoint {
    /// It is set.
    Verified {
        /// The number by which a stop names it.
        id: u32,
        /// The address at which it stops.
        instruction_reference: u32,
    },
    /// It is not.
    Unverified {
        /// Why it is not set, for people.
        message: Text,
    },
}

impl Part for SetInstructionBreakpoints {
    ghost use Rattle.message_parts.specs.SetInstructionBreakpoints.{set_instruction_breakpoints};

    ghost form = { set_instruction_breakpoints };

    fn write(&self, out: &mut Writer) -> Result<(), AllocError> {
        out.begin_object()?;
        member::part(out, BREAKPOINTS, &self.breakpoints)?;
        out.end_object()
    }

    fn read(alloc: Global, value: &Value) -> Result<SetInstructionBreakpoints, Unread> {
        Ok(SetInstructionBreakpoints {
            breakpoints: find::part(alloc, value, BREAKPOINTS)?,
        })
    }
}

impl Part for InstructionBreakpoint {
    ghost use Rattle.message_parts.specs.SetInstructionBreakpoints.{instruction_breakpoint};

    ghost form = { instruction_breakpoint };

    fn write(&self, out: &mut Writer) -> Result<(), AllocError> {
        match self {
            InstructionBreakpoint::Verified {
                id,
                instruction_reference,
            } => {
                out.begin_object()?;
                member::number(out, ID, *id)?;
                member::address(out, INSTRUCTION_REFERENCE, *instruction_reference)?;
                member::truth(out, VERIFIED, true)?;
                out.end_object()
            }
            InstructionBreakpoint::Unverified { message } => {
                out.begin_object()?;
                member::text(out, MESSAGE, message.as_str())?;
                member::truth(out, VERIFIED, false)?;
                out.end_object()
            }
        }
    }

    fn read(alloc: Global, value: &Value) -> Result<InstructionBreakpoint, Unread> {
        if find::truth(value, VERIFIED)? {
            Ok(InstructionBreakpoint::Verified {
                id: find::number(value, ID)?,
                instruction_reference: find::address(value, INSTRUCTION_REFERENCE)?,
            })
        } else {
            Ok(InstructionBreakpoint::Unverified {
                message: find::text(alloc, value, MESSAGE)?,
            })
        }
    }
}

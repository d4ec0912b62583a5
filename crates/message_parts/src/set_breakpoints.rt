//! The body that answers `setBreakpoints`: what became of each breakpoint.

use crate::members::{BREAKPOINTS, ID, INSTRUCTION_REFERENCE, LINE, MESSAGE, VERIFIED};
use crate::part::Part;
use crate::{find, member};
use json::Writer;
use protocol::{Entries, Text, Unread};
use serde_json::Value;
use std::alloc::{AllocError, Global};

/// What became of the breakpoints of a source (`SetBreakpointsResponse`).
#[derive(Drop)]
pub struct SetBreakpoints {
    /// What became of each, in the order in which they were asked for.
    pub breakpoints: Entries<SourceBreakpoint>,
}

/// What became of a breakpoint at a line (`Breakpoint`).
#[derive(Drop)]
pub enum SourceBreakpoint {
    /// It is set.
    Verified {
        /// The number by which a stop names it.
        id: u32,
        /// The address at which it stops.
        instruction_reference: u32,
        /// The line of that address.
        line: u32,
    },
    /// It is not.
    Unverified {
        /// The line that was asked for.
        line: u32,
        /// Why it is not set, for people.
        message: Text,
    },
}

impl Part for SetBreakpoints {
    ghost use Rattle.message_parts.specs.SetBreakpoints.{set_breakpoints};

    ghost form = { set_breakpoints };

    fn write(&self, out: &mut Writer) -> Result<(), AllocError> {
        out.begin_object()?;
        member::part(out, BREAKPOINTS, &self.breakpoints)?;
        out.end_object()
    }

    fn read(alloc: Global, value: &Value) -> Result<SetBreakpoints, Unread> {
        Ok(SetBreakpoints {
            breakpoints: find::part(alloc, value, BREAKPOINTS)?,
        })
    }
}

impl Part for SourceBreakpoint {
    ghost use Rattle.message_parts.specs.SetBreakpoints.{source_breakpoint};

    ghost form = { source_breakpoint };

    fn write(&self, out: &mut Writer) -> Result<(), AllocError> {
        match self {
            SourceBreakpoint::Verified {
                id,
                instruction_reference,
                line,
            } => {
                out.begin_object()?;
                member::number(out, ID, *id)?;
                member::address(out, INSTRUCTION_REFERENCE, *instruction_reference)?;
                member::number(out, LINE, *line)?;
                member::truth(out, VERIFIED, true)?;
                out.end_object()
            }
            SourceBreakpoint::Unverified { line, message } => {
                out.begin_object()?;
                member::number(out, LINE, *line)?;
                member::text(out, MESSAGE, message.as_str())?;
                member::truth(out, VERIFIED, false)?;
                out.end_object()
            }
        }
    }

    fn read(alloc: Global, value: &Value) -> Result<SourceBreakpoint, Unread> {
        if find::truth(value, VERIFIED)? {
            Ok(SourceBreakpoint::Verified {
                id: find::number(value, ID)?,
                instruction_reference: find::address(value, INSTRUCTION_REFERENCE)?,
                line: find::number(value, LINE)?,
            })
        } else {
            Ok(SourceBreakpoint::Unverified {
                line: find::number(value, LINE)?,
                message: find::text(alloc, value, MESSAGE)?,
            })
        }
    }
}

//! The body that answers `setFunctionBreakpoints`: what became of each breakpoint.

use crate::members::BREAKPOINTS;
use crate::part::Part;
use crate::{InstructionBreakpoint, find, member};
use json::Writer;
use protocol::{Entries, Unread};
use serde_json::Value;
use std::alloc::{AllocError, Global};

/// What became of the breakpoints at functions (`SetFunctionBreakpointsResponse`).
#[derive(Drop)]
pub struct SetFunctionBreakpoints {
    /// What became of each, in the order in which they were asked for: one that is set stops at the
    /// function's first instruction.
    pub breakpoints: Entries<InstructionBreakpoint>,
}

impl Part for SetFunctionBreakpoints {
    ghost use Rattle.message_parts.specs.SetFunctionBreakpoints.{set_function_breakpoints};

    ghost form = { set_function_breakpoints };

    fn write(&self, out: &mut Writer) -> Result<(), AllocError> {
        out.begin_object()?;
        member::part(out, BREAKPOINTS, &self.breakpoints)?;
        out.end_object()
    }

    fn read(alloc: Global, value: &Value) -> Result<SetFunctionBreakpoints, Unread> {
        Ok(SetFunctionBreakpoints {
            breakpoints: find::part(alloc, value, BREAKPOINTS)?,
        })
    }
}

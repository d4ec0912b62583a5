//! The body that answers `stackTrace`: where the program is, and from where it was called.
ghost use Rattle.std.specs.Prelude.{◌≡◌};

use crate::members::{
    COLUMN, ID, INSTRUCTION_POINTER_REFERENCE, LINE, NAME, PATH, SOURCE, STACK_FRAMES, TOTAL_FRAMES,
};
use crate::part::Part;
use crate::{find, member};
use json::Writer;
use protocol::{Entries, Text, Unread};
use serde_json::Value;
use std::alloc::{AllocError, Global};

/// The frames of a stopped program (`StackTraceResponse`).
#[derive(Drop)]
pub struct StackTrace {
    /// The frames that the answer gives, the innermost first.
    pub stack_frames: Entries<StackFrame>,
    /// How many frames there are.
    pub total_frames: u32,
}

/// A frame (`StackFrame`).
#[derive(Drop)]
pub struct StackFrame {
    /// The number of the column, 0 where the frame has no line.
    pub column: u32,
    /// The number by which a request names the frame.
    pub id: u32,
    /// The address at which the frame is.
    pub instruction_pointer_reference: u32,
    /// The number of the line, 0 where the frame has none.
    pub line: u32,
    /// What a person sees.
    pub name: Text,
    /// Where the line is. Absent: the address belongs to no line.
    pub source: Option<Source>,
}

/// A source (`Source`).
#[derive(Drop)]
pub struct Source {
    /// The last part of its path.
    pub name: Text,
    /// Where it is.
    pub path: Text,
}

impl Part for StackTrace {
    ghost use Rattle.message_parts.specs.StackTrace.{stack_trace};

    ghost form = { stack_trace };

    fn write(&self, out: &mut Writer) -> Result<(), AllocError> {
        out.begin_object()?;
        member::part(out, STACK_FRAMES, &self.stack_frames)?;
        member::number(out, TOTAL_FRAMES, self.total_frames)?;
        out.end_object()
    }

    fn read(alloc: Global, value: &Value) -> Result<StackTrace, Unread> {
        Ok(StackTrace {
            stack_frames: find::part(alloc, value, STACK_FRAMES)?,
            total_frames: find::number(value, TOTAL_FRAMES)?,
        })
    }
}

impl Part for StackFrame {
    ghost use Rattle.message_parts.specs.StackTrace.{stack_frame};

    ghost form = { stack_frame };

    fn write(&self, out: &mut Writer) -> Result<(), AllocError> {
        out.begin_object()?;
        member::number(out, COLUMN, self.column)?;
        member::number(out, ID, self.id)?;
        member::address(
            out,
            INSTRUCTION_POINTER_REFERENCE,
            self.instruction_pointer_reference,
        )?;
        member::number(out, LINE, self.line)?;
        member::text(out, NAME, self.name.as_str())?;
        member::part_if(out, SOURCE, &self.source)?;
        out.end_object()
    }

    fn read(alloc: Global, value: &Value) -> Result<StackFrame, Unread> {
        Ok(StackFrame {
            column: find::number(value, COLUMN)?,
            id: find::number(value, ID)?,
            instruction_pointer_reference: find::address(value, INSTRUCTION_POINTER_REFERENCE)?,
            line: find::number(value, LINE)?,
            name: find::text(alloc, value, NAME)?,
            source: find::part_if(alloc, value, SOURCE)?,
        })
    }
}

impl Part for Source {
    ghost use Rattle.message_parts.specs.StackTrace.{source};

    ghost form = { source };

    fn write(&self, out: &mut Writer) -> Result<(), AllocError> {
        out.begin_object()?;
        member::text(out, NAME, self.name.as_str())?;
        member::text(out, PATH, self.path.as_str())?;
        out.end_object()
    }

    fn read(alloc: Global, value: &Value) -> Result<Source, Unread> {
        Ok(Source {
            name: find::text(alloc, value, NAME)?,
            path: find::text(alloc, value, PATH)?,
        })
    }
}

//! Values in the arguments of requests: whole numbers, a source, and what is in lists of breakpoints.
ghost use Rattle.std.specs.Prelude.{OnOk};
ghost use Rattle.serde_json.specs.Data.{member, no_members};
ghost use Rattle.message_parts.specs.Forms.{Form, items_of, list, signed};
ghost use Rattle.message_parts.specs.Written.{AreWritten, IsWritten, ItemsWritten};

use json::Writer;
use message_parts::member;
use protocol::members::{CONDITION, HIT_CONDITION, OFFSET};
use protocol::set_breakpoints::{LINE, LOG_MESSAGE, PATH};
use protocol::set_function_breakpoints::FUNCTION_NAME;
use protocol::set_instruction_breakpoints::INSTRUCTION_REFERENCE;
use protocol::{Entries, FunctionBreakpoint, InstructionBreakpoint, Source, SourceBreakpoint};
use std::alloc::AllocError;

/// A value in the arguments of a request.
pub(crate) trait Entry: Drop {
    ghost form: { Form Self };

    /// Writes it. It fails where no memory is left, and then the writer is of no more use.
    fn write(&self, out: &mut Writer) -> Result<(), AllocError>
        ensures { OnOk result (IsWritten out.old out.new (form.value self.now)) };
}

/// Writes a member of this name that is such a value. As each function below, it fails where no memory is left, and then the writer
/// is of no more use.
pub(crate) fn write_one<T: Entry>(out: &mut Writer, name: &str, entry: &T) -> Result<(), AllocError>
    ensures { OnOk result (AreWritten out.old out.new
        (member name.now (T.form.value entry.now) no_members)) }
{
    out.key(name)?;
    entry.write(out)
}

/// Writes a member of this name that is a list of such values.
pub(crate) fn write_list<T: Entry>(
    out: &mut Writer,
    name: &str,
    entries: &Entries<T>,
) -> Result<(), AllocError>
    ensures { OnOk result (AreWritten out.old out.new
        (member name.now ((list T.form).value entries.now) no_members)) }
{
    out.key(name)?;
    write_array(out, entries.as_slice())
}

/// A list of such values.
fn write_array<T: Entry>(out: &mut Writer, entries: &[T]) -> Result<(), AllocError>
    ensures { OnOk result (IsWritten out.old out.new ((list T.form).value entries.now)) }
{
    out.begin_array()?;
    write_each(out, entries)?;
    out.end_array()
}

/// The values in a list, one after the other.
fn write_each<T: Entry>(out: &mut Writer, entries: &[T]) -> Result<(), AllocError>
    ensures { OnOk result (ItemsWritten out.old out.new (items_of T.form.value entries.now)) }
{
    for entry in entries {
        entry.write(out)?;
    }
    Ok(())
}

/// A whole number, which may be below 0.
impl Entry for i32 {
    ghost use Rattle.message_parts.specs.Forms.{signed};

    ghost form = { signed };

    fn write(&self, out: &mut Writer) -> Result<(), AllocError> {
        write_integer(out, *self)
    }
}

/// A whole number, which may be below 0.
fn write_integer(out: &mut Writer, number: i32) -> Result<(), AllocError>
    ensures { OnOk result (IsWritten out.old out.new (signed.value number)) }
{
    out.i64(i64::from(number))
}

impl Entry for Source {
    ghost use Rattle.requests.specs.Arguments.{source};

    ghost form = { source };

    fn write(&self, out: &mut Writer) -> Result<(), AllocError> {
        out.begin_object()?;
        member::part_if(out, PATH, &self.path)?;
        out.end_object()
    }
}

impl Entry for SourceBreakpoint {
    ghost use Rattle.requests.specs.Arguments.{source_breakpoint};

    ghost form = { source_breakpoint };

    fn write(&self, out: &mut Writer) -> Result<(), AllocError> {
        out.begin_object()?;
        member::part_if(out, CONDITION, &self.condition)?;
        member::part_if(out, HIT_CONDITION, &self.hit_condition)?;
        member::part(out, LINE, &self.line)?;
        member::part_if(out, LOG_MESSAGE, &self.log_message)?;
        out.end_object()
    }
}

impl Entry for FunctionBreakpoint {
    ghost use Rattle.requests.specs.Arguments.{function_breakpoint};

    ghost form = { function_breakpoint };

    fn write(&self, out: &mut Writer) -> Result<(), AllocError> {
        out.begin_object()?;
        member::part_if(out, CONDITION, &self.condition)?;
        member::part_if(out, HIT_CONDITION, &self.hit_condition)?;
        member::part(out, FUNCTION_NAME, &self.name)?;
        out.end_object()
    }
}

impl Entry for InstructionBreakpoint {
    ghost use Rattle.requests.specs.Arguments.{instruction_breakpoint};

    ghost form = { instruction_breakpoint };

    fn write(&self, out: &mut Writer) -> Result<(), AllocError> {
        out.begin_object()?;
        member::part_if(out, CONDITION, &self.condition)?;
        member::part_if(out, HIT_CONDITION, &self.hit_condition)?;
        member::part(out, INSTRUCTION_REFERENCE, &self.instruction_reference)?;
        write_one(out, OFFSET, &self.offset)?;
        out.end_object()
    }
}

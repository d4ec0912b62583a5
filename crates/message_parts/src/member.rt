//! Members of JSON objects, written: each call takes the writer, in an object that was begun, the name of
//! the member and its value. It fails where no memory is left, and then the writer is of no more use.
ghost use Rattle.std.specs.Prelude.{OnOk};
ghost use Rattle.serde_json.specs.Data.{boolean, member, no_members, number, string, unsigned};
ghost use Rattle.message_parts.specs.Forms as forms;
ghost use Rattle.message_parts.specs.Addresses as addresses;
ghost use Rattle.message_parts.specs.Forms.{member_if, if_any, list, whole};
ghost use Rattle.message_parts.specs.ReadMemory.{unless_0};
ghost use Rattle.message_parts.specs.Written.{AreWritten};

use crate::address;
use crate::part::Part;
use json::Writer;
use protocol::Entries;
use std::alloc::AllocError;

/// Writes a member of this name that is a part.
pub fn part<T: Part>(out: &mut Writer, name: &str, part: &T) -> Result<(), AllocError>
    ensures { OnOk result (AreWritten out.old out.new
        (member name.now (T.form.value part.now) no_members)) }
{
    out.key(name)?;
    part.write(out)
}

/// Writes a member of this name that is a part, where it is there.
pub fn part_if<T: Part>(out: &mut Writer, name: &str, part: &Option<T>) -> Result<(), AllocError>
    ensures { OnOk result (AreWritten out.old out.new
        (member_if name.now T.form.value part.now no_members)) }
{
    match part {
        Some(there) => self::part(out, name, there),
        None => Ok(()),
    }
}

/// A member that is a list, where it is not empty.
pub(crate) fn unless_empty<T: Part>(
    out: &mut Writer,
    name: &str,
    entries: &Entries<T>,
) -> Result<(), AllocError>
    ensures { OnOk result (AreWritten out.old out.new
        (member_if name.now (list T.form).value (if_any entries.now) no_members)) }
{
    if entries.as_slice().is_empty() {
        Ok(())
    } else {
        self::part(out, name, entries)
    }
}

/// Writes a member of this name that is a text.
pub fn text(out: &mut Writer, name: &str, value: &str) -> Result<(), AllocError>
    ensures { OnOk result (AreWritten out.old out.new
        (member name.now (string value.now) no_members)) }
{
    out.key(name)?;
    out.string(value)
}

/// Writes a member of this name that is a whole number.
pub fn number(out: &mut Writer, name: &str, value: u32) -> Result<(), AllocError>
    ensures { OnOk result (AreWritten out.old out.new
        (member name.now (number (unsigned value)) no_members)) }
{
    self::part(out, name, &value)
}

/// Writes a member of this name that is a whole number, which may be below 0.
pub fn signed(out: &mut Writer, name: &str, value: i32) -> Result<(), AllocError>
    ensures { OnOk result (AreWritten out.old out.new
        (member name.now (forms.signed.value value) no_members)) }
{
    out.key(name)?;
    out.i64(i64::from(value))
}

/// A member that is a whole number, where that is not 0.
pub(crate) fn number_unless_0(out: &mut Writer, name: &str, value: u32) -> Result<(), AllocError>
    ensures { OnOk result (AreWritten out.old out.new
        (member_if name.now whole.value (unless_0 value) no_members)) }
{
    if value == 0 {
        Ok(())
    } else {
        number(out, name, value)
    }
}

/// A member that is a word as a text.
pub(crate) fn address(out: &mut Writer, name: &str, value: u32) -> Result<(), AllocError>
    ensures { OnOk result (AreWritten out.old out.new
        (member name.now (addresses.address.value value) no_members)) }
{
    out.key(name)?;
    address::write(out, value)
}

/// Writes a member of this name that is a truth value.
pub fn truth(out: &mut Writer, name: &str, value: bool) -> Result<(), AllocError>
    ensures { OnOk result (AreWritten out.old out.new
        (member name.now (boolean value) no_members)) }
{
    out.key(name)?;
    out.boolean(value)
}

//! The parts of messages: how each is written, and what a JSON value is taken for.
ghost use Rattle.std.specs.Prelude.{OnOk};
ghost use Rattle.protocol.specs.Arguments.{Reads};
ghost use Rattle.serde_json.specs.Data.{array};
ghost use Rattle.serde_json.specs.View.{view, items_view};
ghost use Rattle.message_parts.specs.Forms.{Form, all_found, items_of, whole};
ghost use Rattle.message_parts.specs.Written.{IsWritten, ItemsWritten};

use crate::find;
use json::Writer;
use protocol::{Entries, Text, Unread};
use serde_json::Value;
use std::alloc::{AllocError, Global};

/// A kind of value in messages. Its form is as which JSON value it is written, and what a JSON value
/// is taken for.
pub trait Part: Drop {
    ghost form: { Form Self };

    /// Writes it. It fails where no memory is left, and then the writer is of no more use.
    fn write(&self, out: &mut Writer) -> Result<(), AllocError>
        ensures { OnOk result (IsWritten out.old out.new (form.value self.now)) };

    /// What the JSON value is taken for. `Bad` where it is taken for none, `NoMemory` where no memory is left.
    fn read(alloc: Global, value: &Value) -> Result<Self, Unread>
        ensures { Reads result (form.found (view value.now)) };
}

/// A whole number of 32 bits.
impl Part for u32 {
    ghost use Rattle.message_parts.specs.Forms.{whole};

    ghost form = { whole };

    fn write(&self, out: &mut Writer) -> Result<(), AllocError> {
        number(out, *self)
    }

    fn read(_alloc: Global, value: &Value) -> Result<u32, Unread> {
        find::whole(value)
    }
}

/// A whole number of 32 bits, written.
fn number(out: &mut Writer, number: u32) -> Result<(), AllocError>
    ensures { OnOk result (IsWritten out.old out.new (whole.value number)) }
{
    out.u64(u64::from(number))
}

/// A text.
impl Part for Text {
    ghost use Rattle.message_parts.specs.Forms.{text};

    ghost form = { text };

    fn write(&self, out: &mut Writer) -> Result<(), AllocError> {
        out.string(self.as_str())
    }

    fn read(alloc: Global, value: &Value) -> Result<Text, Unread> {
        find::string(alloc, value)
    }
}

/// A list of such values.
impl<T: Part> Part for Entries<T> {
    ghost use Rattle.message_parts.specs.Forms.{list};

    ghost form = { list T.form };

    fn write(&self, out: &mut Writer) -> Result<(), AllocError> {
        out.begin_array()?;
        write_each(out, self.as_slice())?;
        out.end_array()
    }

    fn read(alloc: Global, value: &Value) -> Result<Entries<T>, Unread> {
        let values = value.as_array().ok_or(Unread::Bad)?;
        read_each(alloc, values.as_slice())
    }
}

/// The entries of a list, one after the other.
fn write_each<T: Part>(out: &mut Writer, entries: &[T]) -> Result<(), AllocError>
    ensures { OnOk result (ItemsWritten out.old out.new (items_of T.form.value entries.now)) }
{
    for entry in entries {
        entry.write(out)?;
    }
    Ok(())
}

/// What the entries of a list are taken for.
fn read_each<T: Part>(alloc: Global, values: &[Value]) -> Result<Entries<T>, Unread>
    ensures { Reads result (all_found T.form.found (items_view values.now)) }
{
    let mut entries = Vec::with_capacity(alloc, values.len())?;
    for value in values {
        entries.push(T::read(alloc, value)?)?;
    }
    Ok(Entries::from_vec(entries))
}

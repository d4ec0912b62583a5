//! What the members of a JSON object are taken for, each looked up by its name. A value that is no object
//! has no members.
ghost use Rattle.std.specs.Prelude.{option_and_then};
ghost use Rattle.protocol.specs.Arguments.{Reads};
ghost use Rattle.serde_json.specs.Find.{get};
ghost use Rattle.serde_json.specs.View.{view};
ghost use Rattle.message_parts.specs.Addresses as addresses;
ghost use Rattle.message_parts.specs.Forms as forms;

use crate::address::word_in;
use crate::part::Part;
use protocol::{Entries, Text, Unread};
use serde_json::Value;
use std::alloc::Global;

/// The part that the member of this name is taken for. `Bad` where there is no such member or it is taken
/// for none, `NoMemory` where no memory is left.
pub fn part<T: Part>(alloc: Global, value: &Value, name: &str) -> Result<T, Unread>
    ensures { Reads result (option_and_then T.form.found (get name.now (view value.now))) }
{
    match value.get(name) {
        Some(member) => T::read(alloc, member),
        None => Err(Unread::Bad),
    }
}

/// The member that is a part, where it is there.
pub(crate) fn part_if<T: Part>(
    alloc: Global,
    value: &Value,
    name: &str,
) -> Result<Option<T>, Unread>
    ensures { Reads result (forms.found_if T.form.found (get name.now (view value.now))) }
{
    match value.get(name) {
        Some(member) => Ok(Some(T::read(alloc, member)?)),
        None => Ok(None),
    }
}

/// The member that is a list, which is empty where it is not there.
pub(crate) fn unless_empty<T: Part>(
    alloc: Global,
    value: &Value,
    name: &str,
) -> Result<Entries<T>, Unread>
    ensures { Reads result (forms.found_or_empty (forms.list T.form).found
        (get name.now (view value.now))) }
{
    match value.get(name) {
        Some(member) => Entries::read(alloc, member),
        None => Ok(Entries::from_vec(Vec::new(alloc))),
    }
}

/// The member of this name, a whole number of 32 bits. `Bad` where there is no such member or it is none.
pub fn number(value: &Value, name: &str) -> Result<u32, Unread>
    ensures { Reads result (option_and_then forms.whole.found (get name.now (view value.now))) }
{
    match value.get(name) {
        Some(member) => whole(member),
        None => Err(Unread::Bad),
    }
}

/// The whole number of 32 bits that a value is.
pub(crate) fn whole(value: &Value) -> Result<u32, Unread>
    ensures { Reads result (forms.whole.found (view value.now)) }
{
    let number = value.as_u64().ok_or(Unread::Bad)?;
    if number < 1 << 32 {
        Ok(number as u32)
    } else {
        Err(Unread::Bad)
    }
}

/// The member that is a whole number of 32 bits, which may be below 0.
pub(crate) fn signed(value: &Value, name: &str) -> Result<i32, Unread>
    ensures { Reads result (option_and_then forms.signed.found (get name.now (view value.now))) }
{
    let number = value.get(name).and_then(Value::as_i64).ok_or(Unread::Bad)?;
    if i64::from(i32::MIN) <= number && number <= i64::from(i32::MAX) {
        Ok(number as i32)
    } else {
        Err(Unread::Bad)
    }
}

/// The member that is a whole number of 32 bits, where it is there.
pub(crate) fn number_if(value: &Value, name: &str) -> Result<Option<u32>, Unread>
    ensures { Reads result (forms.found_if forms.whole.found (get name.now (view value.now))) }
{
    if value.get(name).is_none() {
        return Ok(None);
    }
    Ok(Some(number(value, name)?))
}

/// The member that is a truth value.
pub(crate) fn truth(value: &Value, name: &str) -> Result<bool, Unread>
    ensures { Reads result (option_and_then forms.truth.found (get name.now (view value.now))) }
{
    value.get(name).and_then(Value::as_bool).ok_or(Unread::Bad)
}

/// The member that is a text.
pub(crate) fn text(alloc: Global, value: &Value, name: &str) -> Result<Text, Unread>
    ensures { Reads result (option_and_then forms.text.found (get name.now (view value.now))) }
{
    match value.get(name) {
        Some(member) => string(alloc, member),
        None => Err(Unread::Bad),
    }
}

/// The text that a value is.
pub(crate) fn string(alloc: Global, value: &Value) -> Result<Text, Unread>
    ensures { Reads result (forms.text.found (view value.now)) }
{
    let text = value.as_str().ok_or(Unread::Bad)?;
    Ok(Text::from_string(String::from_str(alloc, text)?))
}

/// The member that is a word as a text.
pub(crate) fn address(value: &Value, name: &str) -> Result<u32, Unread>
    ensures { Reads result (option_and_then addresses.address.found
        (get name.now (view value.now))) }
{
    let text = value.get(name).and_then(Value::as_str).ok_or(Unread::Bad)?;
    word_in(text.as_bytes()).ok_or(Unread::Bad)
}

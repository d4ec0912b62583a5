//! The arguments of requests, each read by its type from the property of its name. A property that
//! is null counts as absent.
ghost use Rattle.std.specs.Prelude.{◌≡◌, Option, Some, None, Err, IfErr, IfOk};
ghost use Rattle.protocol.specs.declared.unread.Unread.TheVariants.{Bad, NoMemory};
ghost use Rattle.serde_json.specs.Data.{Data};
ghost use Rattle.serde_json.specs.View.{view, members_view};
ghost use Rattle.serde_json.specs.Find.{as_object, as_str};
ghost use Rattle.protocol.specs.Arguments as arguments;
ghost use Rattle.protocol.specs.Arguments.{MayTakeMemory, Reads};
ghost use Rattle.protocol.specs.Properties as properties;

use crate::Text;
use crate::properties::property;
use crate::unread::Unread;
use serde_json::{Map, Value};
use std::alloc::Global;

/// A type that an argument may have in the protocol's schema.
pub(crate) trait Argument: Drop {
    ghost meaning: { Data → Option Self };

    // For which values reading may take memory.
    ghost takes_memory: { Data → Type 0 };

    /// What the JSON value is as such an argument; `Bad` where it is none. `NoMemory`: no memory was
    /// left for a value that takes some.
    fn read(alloc: Global, value: &Value) -> Result<Self, Unread>
        ensures reads { Reads result (meaning (view value.now)) }
        ensures memory { result ≡ Err NoMemory → takes_memory (view value.now) };
}

/// The argument of that name, which has to be there.
pub(crate) fn required<T: Argument>(
    alloc: Global,
    members: &Map<String, Value>,
    name: &str,
) -> Result<T, Unread>
    ensures reads { Reads result (arguments.required T.meaning
        (properties.property name.now (members_view members.now.entries))) }
    ensures memory { result ≡ Err NoMemory → MayTakeMemory T.takes_memory
        (properties.property name.now (members_view members.now.entries)) }
{
    match property(members, name) {
        Some(value) => T::read(alloc, value),
        None => Err(Unread::Bad),
    }
}

/// The argument of that name, where it is there.
pub(crate) fn optional<T: Argument>(
    alloc: Global,
    members: &Map<String, Value>,
    name: &str,
) -> Result<Option<T>, Unread>
    ensures reads { Reads result (arguments.optional T.meaning
        (properties.property name.now (members_view members.now.entries))) }
    ensures memory { result ≡ Err NoMemory → MayTakeMemory T.takes_memory
        (properties.property name.now (members_view members.now.entries)) }
{
    match property(members, name) {
        Some(value) => Ok(Some(T::read(alloc, value)?)),
        None => Ok(None),
    }
}

/// True or false.
impl Argument for bool {
    ghost use Rattle.serde_json.specs.Find.{as_bool};

    ghost meaning = { as_bool };

    ghost takes_memory = { λ _. ⊥ };

    fn read(_alloc: Global, value: &Value) -> Result<bool, Unread> {
        value.as_bool().ok_or(Unread::Bad)
    }
}

/// A whole number from -2,147,483,648 to 2,147,483,647.
impl Argument for i32 {
    ghost use Rattle.protocol.specs.Properties.{integer};

    ghost meaning = { integer };

    ghost takes_memory = { λ _. ⊥ };

    fn read(_alloc: Global, value: &Value) -> Result<i32, Unread> {
        let number = value.as_i64().ok_or(Unread::Bad)?;
        if i64::from(i32::MIN) <= number && number <= i64::from(i32::MAX) {
            Ok(number as i32)
        } else {
            Err(Unread::Bad)
        }
    }
}

/// A whole number from 0 to 2,147,483,647.
impl Argument for u32 {
    ghost use Rattle.protocol.specs.Properties.{natural};

    ghost meaning = { natural };

    ghost takes_memory = { λ _. ⊥ };

    fn read(_alloc: Global, value: &Value) -> Result<u32, Unread> {
        let number = value.as_u64().ok_or(Unread::Bad)?;
        if number <= i32::MAX as u64 {
            Ok(number as u32)
        } else {
            Err(Unread::Bad)
        }
    }
}

/// A text.
impl Argument for Text {
    ghost use Rattle.serde_json.specs.Find.{as_str};
    ghost use Rattle.protocol.specs.Arguments.{IsText};

    ghost meaning = { as_str };

    ghost takes_memory = { IsText };

    fn read(alloc: Global, value: &Value) -> Result<Text, Unread> {
        Ok(Text::from_string(String::from_str(alloc, text(value)?)?))
    }
}

/// The text that a value is; `Bad` where it is none.
pub(crate) fn text(value: &Value) -> Result<&str, Unread>
    ensures is { IfOk result (λ text. as_str (view value.now) ≡ Some text.now) }
    ensures bad { IfErr result (λ why. (why ≡ Bad) × (as_str (view value.now) ≡ None)) }
{
    value.as_str().ok_or(Unread::Bad)
}

/// The members of the object that a value is; `Bad` where it is none.
pub(crate) fn object(value: &Value) -> Result<&Map<String, Value>, Unread>
    ensures is { IfOk result (λ m. as_object (view value.now) ≡ Some (members_view m.now.entries)) }
    ensures bad { IfErr result (λ why. (why ≡ Bad) × (as_object (view value.now) ≡ None)) }
{
    value.as_object().ok_or(Unread::Bad)
}

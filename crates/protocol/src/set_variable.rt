//! The request `setVariable`: a variable gets another value.
ghost use Rattle.std.specs.Prelude.{◌≡◌, Err};
ghost use Rattle.serde_json.specs.View.{members_view};
ghost use Rattle.protocol.specs.Arguments.{IsText, MayTakeMemory, Reads};
ghost use Rattle.protocol.specs.Properties.{property};
ghost use Rattle.protocol.specs.SetVariable.{set_variable_arguments};

use crate::Text;
use crate::argument::required;
use crate::members::VARIABLES_REFERENCE;
use crate::unread::Unread;
use serde_json::{Map, Value};
use std::alloc::Global;

/// The request's name.
pub const NAME: &str = "setVariable";

/// The variable's name (`SetVariableArguments.name`).
pub const VARIABLE_NAME: &str = "name";
/// The variable's new value (`SetVariableArguments.value`).
pub const VALUE: &str = "value";

/// Which variable gets which value (`SetVariableArguments`).
#[derive(Drop)]
pub struct SetVariableArguments {
    /// The reference of the scope. A whole number from -2,147,483,648 to 2,147,483,647.
    pub variables_reference: i32,
    /// The variable's name.
    pub name: Text,
    /// The variable's new value, as the editor writes it.
    pub value: Text,
}

/// The arguments; `Bad` where `variablesReference` is absent, or no whole number from
/// -2,147,483,648 to 2,147,483,647, or where `name` or `value` is absent or no text.
pub(crate) fn arguments(
    alloc: Global,
    members: &Map<String, Value>,
) -> Result<SetVariableArguments, Unread>
    ensures reads { Reads result (set_variable_arguments (members_view members.now.entries)) }
    ensures memory { result ≡ Err Unread.NoMemory → MayTakeMemory IsText
        (property VARIABLE_NAME.now (members_view members.now.entries)) }
{
    Ok(SetVariableArguments {
        variables_reference: required(alloc, members, VARIABLES_REFERENCE)?,
        name: required(alloc, members, VARIABLE_NAME)?,
        value: required(alloc, members, VALUE)?,
    })
}

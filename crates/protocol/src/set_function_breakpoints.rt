//! The request `setFunctionBreakpoints`: the breakpoints at functions.
ghost use Rattle.std.specs.Prelude.{◌≡◌, Err};
ghost use Rattle.serde_json.specs.View.{members_view};
ghost use Rattle.protocol.specs.Arguments.{IsList, MayTakeMemory, Reads};
ghost use Rattle.protocol.specs.Properties.{property};
ghost use Rattle.protocol.specs.SetFunctionBreakpoints.{set_function_breakpoints_arguments};

use crate::argument::{Argument, object, optional, required};
use crate::members::{BREAKPOINTS, CONDITION, HIT_CONDITION};
use crate::unread::Unread;
use crate::{Entries, Text};
use serde_json::{Map, Value};
use std::alloc::Global;

/// The request's name.
pub const NAME: &str = "setFunctionBreakpoints";

/// A function's name (`FunctionBreakpoint.name`).
pub const FUNCTION_NAME: &str = "name";

/// All breakpoints at functions (`SetFunctionBreakpointsArguments`).
#[derive(Drop)]
pub struct SetFunctionBreakpointsArguments {
    /// The breakpoints, in the editor's order.
    pub breakpoints: Entries<FunctionBreakpoint>,
}

/// A breakpoint at a function (`FunctionBreakpoint`).
#[derive(Drop)]
pub struct FunctionBreakpoint {
    /// The function's name, as the editor writes it.
    pub name: Text,
    /// The expression under which it is hit.
    pub condition: Option<Text>,
    /// Which of its hits stops.
    pub hit_condition: Option<Text>,
}

impl Argument for FunctionBreakpoint {
    ghost use Rattle.protocol.specs.Arguments.{IsObject};
    ghost use Rattle.protocol.specs.SetFunctionBreakpoints.{function_breakpoint};

    ghost meaning = { function_breakpoint };

    ghost takes_memory = { IsObject };

    fn read(alloc: Global, value: &Value) -> Result<FunctionBreakpoint, Unread> {
        let members = object(value)?;
        Ok(FunctionBreakpoint {
            name: required(alloc, members, FUNCTION_NAME)?,
            condition: optional(alloc, members, CONDITION)?,
            hit_condition: optional(alloc, members, HIT_CONDITION)?,
        })
    }
}

/// The arguments; `Bad` where `breakpoints` is absent or no list of objects; where one of these has
/// no `name`, or one that is no text; or where a condition is no text.
pub(crate) fn arguments(
    alloc: Global,
    members: &Map<String, Value>,
) -> Result<SetFunctionBreakpointsArguments, Unread>
    ensures reads { Reads result
        (set_function_breakpoints_arguments (members_view members.now.entries)) }
    ensures memory { result ≡ Err Unread.NoMemory → MayTakeMemory IsList
        (property BREAKPOINTS.now (members_view members.now.entries)) }
{
    Ok(SetFunctionBreakpointsArguments {
        breakpoints: required(alloc, members, BREAKPOINTS)?,
    })
}

//! The request `variables`: the variables of a scope.
ghost use Rattle.std.specs.Prelude.{◌≢◌, Err};
ghost use Rattle.serde_json.specs.View.{members_view};
ghost use Rattle.protocol.specs.Arguments.{Reads};
ghost use Rattle.protocol.specs.Variables.{variables_arguments};

use crate::argument::{optional, required};
use crate::filter::Filter;
use crate::members::{COUNT, VARIABLES_REFERENCE};
use crate::unread::Unread;
use serde_json::{Map, Value};
use std::alloc::Global;

/// The request's name.
pub const NAME: &str = "variables";

/// Which kind of variables (`VariablesArguments.filter`).
pub const FILTER: &str = "filter";
/// The first variable (`VariablesArguments.start`).
pub const START: &str = "start";

/// Which variables are asked for (`VariablesArguments`).
#[derive(Drop)]
pub struct VariablesArguments {
    /// The reference of the scope. A whole number from -2,147,483,648 to 2,147,483,647.
    pub variables_reference: i32,
    /// Which kind of variables. Absent: both kinds.
    pub filter: Option<Filter>,
    /// The first variable, counted from 0, to 2,147,483,647. Absent: 0.
    pub start: u32,
    /// How many variables, from 0 to 2,147,483,647.
    pub count: Option<u32>,
}

/// The arguments; `Bad` where `variablesReference` is absent, or no whole number from
/// -2,147,483,648 to 2,147,483,647; where `filter` is neither of the schema's two; or where `start`
/// or `count` is there and is no whole number from 0 to 2,147,483,647.
pub(crate) fn arguments(
    alloc: Global,
    members: &Map<String, Value>,
) -> Result<VariablesArguments, Unread>
    ensures reads { Reads result (variables_arguments (members_view members.now.entries)) }
    ensures memory { result ≢ Err Unread.NoMemory }
{
    Ok(VariablesArguments {
        variables_reference: required(alloc, members, VARIABLES_REFERENCE)?,
        filter: optional(alloc, members, FILTER)?,
        start: optional(alloc, members, START)?.unwrap_or(0),
        count: optional(alloc, members, COUNT)?,
    })
}

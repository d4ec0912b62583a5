//! The arguments of a step: those of `next`, `stepIn`, `stepOut` and `stepBack`.
ghost use Rattle.std.specs.Prelude.{◌≢◌, Err};
ghost use Rattle.serde_json.specs.View.{members_view};
ghost use Rattle.protocol.specs.Arguments.{Reads};
ghost use Rattle.protocol.specs.StepArguments as spec;

use crate::argument::{optional, required};
use crate::granularity::{GRANULARITY, Granularity};
use crate::members::THREAD_ID;
use crate::unread::Unread;
use serde_json::{Map, Value};
use std::alloc::Global;

/// Which thread makes a step, and how far (`NextArguments`, `StepInArguments`, `StepOutArguments`, `StepBackArguments`).
#[derive(Drop)]
pub struct StepArguments {
    /// The thread. A whole number from -2,147,483,648 to 2,147,483,647.
    pub thread_id: i32,
    /// How far the step goes. Absent: to another statement. A step back has to name one of the schema's three too, and goes back by one
    /// instruction at each of them.
    pub granularity: Granularity,
}

/// The arguments; `Bad` where `threadId` is absent, or no whole number from -2,147,483,648 to
/// 2,147,483,647, or where `granularity` is none of the schema's three.
pub(crate) fn step_arguments(
    alloc: Global,
    members: &Map<String, Value>,
) -> Result<StepArguments, Unread>
    ensures reads { Reads result (spec.step_arguments (members_view members.now.entries)) }
    ensures memory { result ≢ Err Unread.NoMemory }
{
    Ok(StepArguments {
        thread_id: required(alloc, members, THREAD_ID)?,
        granularity: optional(alloc, members, GRANULARITY)?.unwrap_or(Granularity::Statement),
    })
}

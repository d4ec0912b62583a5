//! The request `stackTrace`: the frames of a thread's call stack.
ghost use Rattle.std.specs.Prelude.{◌≢◌, Err};
ghost use Rattle.serde_json.specs.View.{members_view};
ghost use Rattle.protocol.specs.Arguments.{Reads};
ghost use Rattle.protocol.specs.StackTrace.{stack_trace_arguments};

use crate::argument::{optional, required};
use crate::members::THREAD_ID;
use crate::unread::Unread;
use serde_json::{Map, Value};
use std::alloc::Global;

/// The request's name.
pub const NAME: &str = "stackTrace";

/// The first frame (`StackTraceArguments.startFrame`).
pub const START_FRAME: &str = "startFrame";
/// How many frames (`StackTraceArguments.levels`).
pub const LEVELS: &str = "levels";

/// Which frames are asked for (`StackTraceArguments`).
#[derive(Drop)]
pub struct StackTraceArguments {
    /// The thread. A whole number from -2,147,483,648 to 2,147,483,647.
    pub thread_id: i32,
    /// The first frame, counted from the innermost, which is 0, to 2,147,483,647. Absent: 0.
    pub start_frame: u32,
    /// How many frames, from 0 to 2,147,483,647.
    pub levels: Option<u32>,
}

/// The arguments; `Bad` where `threadId` is absent, or no whole number from -2,147,483,648 to
/// 2,147,483,647, or where `startFrame` or `levels` is there and is no whole number from 0 to
/// 2,147,483,647.
pub(crate) fn arguments(
    alloc: Global,
    members: &Map<String, Value>,
) -> Result<StackTraceArguments, Unread>
    ensures reads { Reads result (stack_trace_arguments (members_view members.now.entries)) }
    ensures memory { result ≢ Err Unread.NoMemory }
{
    Ok(StackTraceArguments {
        thread_id: required(alloc, members, THREAD_ID)?,
        start_frame: optional(alloc, members, START_FRAME)?.unwrap_or(0),
        levels: optional(alloc, members, LEVELS)?,
    })
}

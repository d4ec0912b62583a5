//! The arguments of a request that names a thread alone: those of `continue`, `pause` and `reverseContinue`.
ghost use Rattle.std.specs.Prelude.{◌≢◌, Err};
ghost use Rattle.serde_json.specs.View.{members_view};
ghost use Rattle.protocol.specs.Arguments.{Reads};
ghost use Rattle.protocol.specs.ThreadArguments as spec;

use crate::argument::required;
use crate::members::THREAD_ID;
use crate::unread::Unread;
use serde_json::{Map, Value};
use std::alloc::Global;

/// Which thread is meant (`ContinueArguments`, `PauseArguments`, `ReverseContinueArguments`).
#[derive(Drop)]
pub struct ThreadArguments {
    /// The thread. A whole number from -2,147,483,648 to 2,147,483,647.
    pub thread_id: i32,
}

/// The arguments; `Bad` where `threadId` is absent, or no whole number from -2,147,483,648 to
/// 2,147,483,647.
pub(crate) fn thread_arguments(
    alloc: Global,
    members: &Map<String, Value>,
) -> Result<ThreadArguments, Unread>
    ensures reads { Reads result (spec.thread_arguments (members_view members.now.entries)) }
    ensures memory { result ≢ Err Unread.NoMemory }
{
    Ok(ThreadArguments {
        thread_id: required(alloc, members, THREAD_ID)?,
    })
}

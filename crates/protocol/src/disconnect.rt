//! The request `disconnect`: an editor ends the session.
ghost use Rattle.std.specs.Prelude.{◌≢◌, Err};
ghost use Rattle.serde_json.specs.View.{members_view};
ghost use Rattle.protocol.specs.Arguments.{Reads};
ghost use Rattle.protocol.specs.Disconnect.{disconnect_arguments};

use crate::argument::optional;
use crate::unread::Unread;
use serde_json::{Map, Value};
use std::alloc::Global;

/// The request's name.
pub const NAME: &str = "disconnect";

/// Whether the program is to be ended (`DisconnectArguments.terminateDebuggee`).
pub const TERMINATE_DEBUGGEE: &str = "terminateDebuggee";
/// Whether the program is to be stopped (`DisconnectArguments.suspendDebuggee`).
pub const SUSPEND_DEBUGGEE: &str = "suspendDebuggee";

/// What becomes of the program (`DisconnectArguments`).
#[derive(Clone, Copy)]
pub struct DisconnectArguments {
    /// Whether the program is to be ended.
    pub terminate_debuggee: Option<bool>,
    /// Whether the program is to be stopped where it is not ended.
    pub suspend_debuggee: Option<bool>,
}

/// The arguments; `Bad` where one of the two is there and is neither true nor false.
pub(crate) fn arguments(
    alloc: Global,
    members: &Map<String, Value>,
) -> Result<DisconnectArguments, Unread>
    ensures reads { Reads result (disconnect_arguments (members_view members.now.entries)) }
    ensures memory { result ≢ Err Unread.NoMemory }
{
    Ok(DisconnectArguments {
        terminate_debuggee: optional(alloc, members, TERMINATE_DEBUGGEE)?,
        suspend_debuggee: optional(alloc, members, SUSPEND_DEBUGGEE)?,
    })
}

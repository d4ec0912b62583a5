//! The request `scopes`: the scopes of a frame.
ghost use Rattle.std.specs.Prelude.{◌≢◌, Err};
ghost use Rattle.serde_json.specs.View.{members_view};
ghost use Rattle.protocol.specs.Arguments.{Reads};
ghost use Rattle.protocol.specs.Scopes.{scopes_arguments};

use crate::argument::required;
use crate::members::FRAME_ID;
use crate::unread::Unread;
use serde_json::{Map, Value};
use std::alloc::Global;

/// The request's name.
pub const NAME: &str = "scopes";

/// Which frame's scopes are asked for (`ScopesArguments`).
#[derive(Drop)]
pub struct ScopesArguments {
    /// The frame. A whole number from -2,147,483,648 to 2,147,483,647.
    pub frame_id: i32,
}

/// The arguments; `Bad` where `frameId` is absent, or no whole number from -2,147,483,648 to
/// 2,147,483,647.
pub(crate) fn arguments(
    alloc: Global,
    members: &Map<String, Value>,
) -> Result<ScopesArguments, Unread>
    ensures reads { Reads result (scopes_arguments (members_view members.now.entries)) }
    ensures memory { result ≢ Err Unread.NoMemory }
{
    Ok(ScopesArguments {
        frame_id: required(alloc, members, FRAME_ID)?,
    })
}

//! The request `cancel`: an editor is no longer interested in the result of an earlier request.
ghost use Rattle.std.specs.Prelude.{◌≢◌, Err};
ghost use Rattle.serde_json.specs.View.{members_view};
ghost use Rattle.protocol.specs.Arguments.{Reads};
ghost use Rattle.protocol.specs.Cancel.{cancel_arguments};

use crate::argument::optional;
use crate::unread::Unread;
use serde_json::{Map, Value};
use std::alloc::Global;

/// The request's name.
pub const NAME: &str = "cancel";

/// The number of the request to cancel (`CancelArguments.requestId`).
pub const REQUEST_ID: &str = "requestId";

/// What is to be cancelled (`CancelArguments`). What the editor says beside this, `progressId` too,
/// is not looked at.
#[derive(Clone, Copy)]
pub struct CancelArguments {
    /// The number (`seq`) of the request to cancel, from -2,147,483,648 to 2,147,483,647. Absent:
    /// no request is named.
    pub request_id: Option<i32>,
}

/// The arguments; `Bad` where `requestId` is there and is no whole number from -2,147,483,648 to
/// 2,147,483,647.
pub(crate) fn arguments(
    alloc: Global,
    members: &Map<String, Value>,
) -> Result<CancelArguments, Unread>
    ensures reads { Reads result (cancel_arguments (members_view members.now.entries)) }
    ensures memory { result ≢ Err Unread.NoMemory }
{
    Ok(CancelArguments {
        request_id: optional(alloc, members, REQUEST_ID)?,
    })
}

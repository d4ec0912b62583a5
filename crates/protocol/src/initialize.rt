//! The request `initialize`: an editor says how it counts lines and columns.
ghost use Rattle.std.specs.Prelude.{◌≢◌, Err};
ghost use Rattle.serde_json.specs.View.{members_view};
ghost use Rattle.protocol.specs.Arguments.{Reads};
ghost use Rattle.protocol.specs.Initialize.{initialize_arguments};

use crate::argument::optional;
use crate::unread::Unread;
use serde_json::{Map, Value};
use std::alloc::Global;

/// The request's name.
pub const NAME: &str = "initialize";

/// Whether the first line is line 1 (`InitializeRequestArguments.linesStartAt1`).
pub const LINES_START_AT1: &str = "linesStartAt1";
/// Whether the first column is column 1 (`InitializeRequestArguments.columnsStartAt1`).
pub const COLUMNS_START_AT1: &str = "columnsStartAt1";

/// What the editor says of itself (`InitializeRequestArguments`). What it says beside this is not
/// looked at.
#[derive(Clone, Copy)]
pub struct InitializeArguments {
    /// The first line is line 1, and else line 0. Absent: 1.
    pub lines_start_at1: bool,
    /// The first column is column 1, and else column 0. Absent: 1.
    pub columns_start_at1: bool,
}

/// The arguments; `Bad` where one of the two is neither true nor false.
pub(crate) fn arguments(
    alloc: Global,
    members: &Map<String, Value>,
) -> Result<InitializeArguments, Unread>
    ensures reads { Reads result (initialize_arguments (members_view members.now.entries)) }
    ensures memory { result ≢ Err Unread.NoMemory }
{
    Ok(InitializeArguments {
        lines_start_at1: optional(alloc, members, LINES_START_AT1)?.unwrap_or(true),
        columns_start_at1: optional(alloc, members, COLUMNS_START_AT1)?.unwrap_or(true),
    })
}

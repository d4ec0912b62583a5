//! The request `launch`: an editor starts a program.
ghost use Rattle.std.specs.Prelude.{◌≡◌, Err};
ghost use Rattle.serde_json.specs.View.{members_view};
ghost use Rattle.protocol.specs.Arguments.{IsText, MayTakeMemory, Reads};
ghost use Rattle.protocol.specs.Properties.{property};
ghost use Rattle.protocol.specs.Launch.{launch_arguments};

use crate::Text;
use crate::argument::{optional, required};
use crate::unread::Unread;
use serde_json::{Map, Value};
use std::alloc::Global;

/// The request's name.
pub const NAME: &str = "launch";

/// The program (`LaunchArguments.program`).
pub const PROGRAM: &str = "program";
/// Whether it stops before its first instruction (`LaunchArguments.stopOnEntry`).
pub const STOP_ON_ENTRY: &str = "stopOnEntry";

/// Which program is started (`LaunchArguments`).
#[derive(Drop)]
pub struct LaunchArguments {
    /// The path of the program.
    pub program: Text,
    /// Whether it stops before its first instruction. Absent: it doesn't.
    pub stop_on_entry: bool,
}

/// The arguments; `Bad` where `program` is absent or no text, or `stopOnEntry` is there and is
/// neither true nor false.
pub(crate) fn arguments(
    alloc: Global,
    members: &Map<String, Value>,
) -> Result<LaunchArguments, Unread>
    ensures reads { Reads result (launch_arguments (members_view members.now.entries)) }
    ensures memory { result ≡ Err Unread.NoMemory → MayTakeMemory IsText
        (property PROGRAM.now (members_view members.now.entries)) }
{
    Ok(LaunchArguments {
        program: required(alloc, members, PROGRAM)?,
        stop_on_entry: optional(alloc, members, STOP_ON_ENTRY)?.unwrap_or(false),
    })
}

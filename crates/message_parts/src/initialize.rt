//! The body that answers `initialize`: what the adapter can do.
ghost use Rattle.std.specs.Prelude.{OnOk, map};
ghost use Rattle.message_parts.specs.Initialize.{all_true, initialize_body};
ghost use Rattle.message_parts.specs.Written.{Appends, IsWritten, members_tokens};

use crate::member;
use json::Writer;
use std::alloc::AllocError;

/// What the adapter can do (`Capabilities`).
const CAPABILITIES: &[&str] = &[
    "supportSuspendDebuggee",
    "supportTerminateDebuggee",
    "supportsCancelRequest",
    "supportsConditionalBreakpoints",
    "supportsConfigurationDoneRequest",
    "supportsDisassembleRequest",
    "supportsEvaluateForHovers",
    "supportsFunctionBreakpoints",
    "supportsHitConditionalBreakpoints",
    "supportsInstructionBreakpoints",
    "supportsLogPoints",
    "supportsReadMemoryRequest",
    "supportsRestartRequest",
    "supportsSetVariable",
    "supportsStepBack",
    "supportsSteppingGranularity",
    "supportsTerminateRequest",
    "supportsWriteMemoryRequest",
];

/// Writes the capabilities, each of them true. It fails where no memory is left,
/// and then the writer is of no more use.
pub fn body(out: &mut Writer) -> Result<(), AllocError>
    ensures { OnOk result (IsWritten out.old out.new initialize_body) }
{
    out.begin_object()?;
    all_true(out, CAPABILITIES)?;
    out.end_object()
}

/// A member of each name, each of them true.
fn all_true(out: &mut Writer, names: &[&str]) -> Result<(), AllocError>
    ensures { OnOk result (Appends out.old out.new
        (members_tokens (all_true (map (λ name. name.now) names.now)))) }
{
    for name in names {
        member::truth(out, name, true)?;
    }
    Ok(())
}

//! Editors over wires.
ghost use Rattle.session.specs.Kept.{OfEach};
ghost use Rattle.rvdap.specs.Beginnings.{Makes};
ghost use Rattle.rvdap.specs.Editors.{IsServed};
ghost use Rattle.transport.specs.Told.{known};

use crate::exit_reason::exit_reason_of;
use assembler::AsmError;
use commands::{ExitReason, MemorySize};
use protocol::Text;
use session::{Bytes, Config, ConfigError, Limits, Session};
use std::alloc::Global;
use transport::{EventRef, Files, Recorder, drive_told};
use wires::Wire;

/// How many turns the program grants: no one will live to see them used up.
pub(crate) const TURNS: u64 = u64::MAX;

/// Why there is no session.
pub(crate) enum NoSession {
    /// The program that is given has no image.
    Assembly(AsmError),
    /// No memory was left.
    NoMemory,
}

/// A session with this much memory for a machine, with this program, if one is given (the path of its file, and what that holds), and
/// with the greatest limits.
pub(crate) fn new_session(
    alloc: Global,
    memory: MemorySize,
    program: Option<(Text, Bytes)>,
) -> Result<Session, NoSession>
    ensures { Makes memory.bytes program result }
{
    let config = Config {
        memory_size: memory.bytes,
        program,
    };
    match Session::new(alloc, config, Limits::greatest()) {
        Ok(session) => Ok(session),
        Err(ConfigError::Assembly(error)) => Err(NoSession::Assembly(error)),
        Err(ConfigError::NoMemory) => Err(NoSession::NoMemory),
        Err(ConfigError::BadMemorySize | ConfigError::BadLimit) => unreachable!(),
    }
}

/// Serves an editor that comes over a wire, tells a recorder what happens, and gives how the program ends then.
pub(crate) fn serve_one<W: Wire, F: Files, R: Recorder>(
    alloc: Global,
    session: &mut Session,
    wire: &mut W,
    files: &mut F,
    recorder: &mut R,
) -> ExitReason
    ensures { OfEach session.old
        (λ s. IsServed (known (F.past files.old) (R.told recorder.old))
        (known (F.past files.new) (R.told recorder.new)) (W.line wire.old)
        (W.line wire.new) s session.new result) }
{
    let _ = session.connect();
    recorder.tell(EventRef::Connect);
    let end = drive_told(alloc, session, wire, files, recorder, TURNS);
    exit_reason_of(end, session.link_fault())
}

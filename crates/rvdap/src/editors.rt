//! Editors whose wires a door accepts.
ghost use Rattle.std.specs.Prelude.{◌≡◌};
ghost use Rattle.session.specs.Kept.{OfEach};
ghost use Rattle.rvdap.specs.Editors as spec;
ghost use Rattle.transport.specs.Told.{known};

use crate::exit_reason::exit_reason_of;
use crate::serving::{TURNS, serve_one};
use commands::ExitReason;
use options::Options;
use session::Session;
use std::alloc::Global;
use transport::{Files, Recorder, serve_told};
use wires::Door;

/// Which editors are served.
#[derive(Clone, Copy)]
pub enum Editors {
    /// The first one.
    One,
    /// All of them, one after the other.
    All,
}

/// Which are served, by the options: of those that connect to an address the first (`--once`) or all; without an address none of these, but the
/// one over standard streams.
pub(crate) fn editors_of(options: &Options) -> Option<Editors>
    ensures { result ≡ spec.editors_of options.now.listen options.now.once }
{
    match (&options.listen, options.once) {
        (None, _) => None,
        (Some(_), true) => Some(Editors::One),
        (Some(_), false) => Some(Editors::All),
    }
}

/// Serves the first editor whose wire a door accepts, or all of them, tells a recorder what happens, and gives how the program ends then.
pub(crate) fn serve_accepted<D: Door, F: Files, R: Recorder>(
    alloc: Global,
    session: &mut Session,
    door: &mut D,
    files: &mut F,
    recorder: &mut R,
    editors: Editors,
) -> ExitReason
    ensures { OfEach session.old
        (λ s. spec.Serves editors (known (F.past files.old) (R.told recorder.old))
        (known (F.past files.new) (R.told recorder.new)) (D.doorway door.old)
        (D.doorway door.new) s session.new result) }
{
    match editors {
        Editors::One => serve_first(alloc, session, door, files, recorder),
        Editors::All => {
            let end = serve_told(alloc, session, door, files, recorder, TURNS);
            exit_reason_of(end, None)
        }
    }
}

fn serve_first<D: Door, F: Files, R: Recorder>(
    alloc: Global,
    session: &mut Session,
    door: &mut D,
    files: &mut F,
    recorder: &mut R,
) -> ExitReason
    ensures { OfEach session.old
        (λ s. spec.ServesFirst (known (F.past files.old) (R.told recorder.old))
        (known (F.past files.new) (R.told recorder.new)) (D.doorway door.old)
        (D.doorway door.new) s session.new result) }
{
    match door.accept_wait() {
        Ok(Some(mut wire)) => serve_one(alloc, session, &mut wire, files, recorder),
        Ok(None) => ExitReason::Success,
        Err(_) => ExitReason::ReadOrWriteFault,
    }
}

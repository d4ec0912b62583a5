//! What a round does to a session.
ghost use Rattle.std.specs.Prelude.{◌≡◌, ◌∷◌, [], Err, Ok, OnErr, IfOk, option_map};
ghost use Rattle.session.specs.declared.event.Event.TheVariants as event;
ghost use Rattle.session.specs.declared.event.Applied.TheVariants as applied;
ghost use Rattle.session.specs.Kept.{Happens, OfEach, Stands, answered};
ghost use Rattle.session.specs.Outcomes.{wanted_on};
ghost use Rattle.session.specs.Sessions.{Effect};
ghost use Rattle.transport.specs.Files.{Records};
ghost use Rattle.transport.specs.Rounds.{IsGiven};
ghost use Rattle.transport.specs.Private.Rounds.{Took, reads_made};
ghost use Rattle.transport.specs.Private.Told.{told_by, told_of_piece};

use crate::end::DriveEnd;
use crate::files::{Files, file_at};
use crate::recorder::{EventRef, Recorder};
use session::{Bytes, EventError, Session, Turned};
use std::alloc::{AllocError, Global};

/// The moves of the slice that a program is given in one round.
pub(crate) const MOVES_GRANTED: u32 = 100_000;

/// The file that the next answer wants, if it wants one and it can be read.
pub(crate) fn file_wanted<F: Files>(
    alloc: Global,
    session: &Session,
    files: &mut F,
) -> Result<Option<Bytes>, AllocError>
    ensures given { IfOk result
        (λ file. IsGiven (wanted_on session.now.now session.now.now.link) file) }
    ensures reads { Records (F.past files.old) (F.past files.new)
        (reads_made (wanted_on session.now.now session.now.now.link) result) }
{
    match session.wants_file() {
        Some(path) => file_at(alloc, files, path),
        None => Ok(None),
    }
}

/// Answers with this file.
pub(crate) fn turn_with<R: Recorder>(
    session: &mut Session,
    recorder: &mut R,
    file: Option<Bytes>,
) -> Result<Turned, EventError>
    ensures stands { Happens session.old (event.Turn file)
        (answered applied.Turn result) session.new }
    ensures err { OnErr result (session.new ≡ session.old) }
    ensures told { Records (R.told recorder.old) (R.told recorder.new)
        (told_by (event.Turn file) result) }
{
    match file {
        Some(text) => turn_lent(session, recorder, Some(text.as_slice())),
        None => turn_lent(session, recorder, None),
    }
}

fn turn_lent<R: Recorder>(
    session: &mut Session,
    recorder: &mut R,
    file: Option<&[u8]>,
) -> Result<Turned, EventError>
    ensures stands { Happens session.old (event.Turn (option_map (λ text. text.now) file.entry))
        (answered applied.Turn result) session.new }
    ensures err { OnErr result (session.new ≡ session.old) }
    ensures told { Records (R.told recorder.old) (R.told recorder.new)
        (told_by (event.Turn (option_map (λ text. text.now) file.entry)) result) }
{
    match session.turn(file) {
        Err(EventError::NoMemory) => Err(EventError::NoMemory),
        turned => {
            recorder.tell(EventRef::Turn(file));
            turned
        }
    }
}

/// Takes a piece: no move was made since.
pub(crate) fn take<R: Recorder>(
    session: &mut Session,
    recorder: &mut R,
    piece: &[u8],
) -> Result<u64, DriveEnd>
    ensures took { OfEach session.old (λ s. Took result piece.now s session.new) }
    ensures none { IfOk result (λ moves. moves ≡ 0) }
    ensures told { Records (R.told recorder.old) (R.told recorder.new)
        (told_of_piece piece.now result) }
{
    match session.recv(piece) {
        Ok(()) => taken(recorder, piece),
        Err(error) => match error {
            EventError::NoMemory => leave(session, recorder, DriveEnd::NoMemory),
            _ => taken(recorder, piece),
        },
    }
}

fn taken<R: Recorder>(recorder: &mut R, piece: &[u8]) -> Result<u64, DriveEnd>
    ensures ok { result ≡ Ok 0 }
    ensures told { Records (R.told recorder.old) (R.told recorder.new) (event.Recv piece.now ∷ []) }
{
    recorder.tell(EventRef::Recv(piece));
    Ok(0)
}

/// The connection ends, and driving with it.
pub(crate) fn leave<R: Recorder>(
    session: &mut Session,
    recorder: &mut R,
    end: DriveEnd,
) -> Result<u64, DriveEnd>
    ensures end { result ≡ Err end }
    ensures dropped { OfEach session.old (λ s. Stands session.new (Effect s event.DropConnection)) }
    ensures told { Records (R.told recorder.old) (R.told recorder.new) (event.DropConnection ∷ []) }
{
    let _ = session.drop_connection();
    recorder.tell(EventRef::DropConnection);
    Err(end)
}

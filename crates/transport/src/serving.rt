//! A session is served over each wire that a door accepts, one after the other.
ghost use Rattle.std.specs.Prelude.{◌≡◌, ◌<◌, ◌≤◌, ◌∷◌, [], length, true, IfOk, ℕ};
ghost use Rattle.session.specs.Kept.{OfEach};
ghost use Rattle.session.specs.Slices.{is_runnable};
ghost use Rattle.transport.specs.Files.{KnownReads};
ghost use Rattle.transport.specs.Rounds.{moves_granted};
ghost use Rattle.transport.specs.Serving.{Served, ServedTold, waits_while};
ghost use Rattle.transport.specs.Private.Serving.{IteratedOrEnded};
ghost use Rattle.transport.specs.Told.{known};
ghost use Rattle.wires.specs.Doors.{Doorway, Opened};
ghost use Rattle.wires.specs.Wires.{one_more};

use crate::drives::drive_in;
use crate::end::DriveEnd;
use crate::files::Files;
use crate::recorder::{EventRef, Recorder, Unrecorded};
use crate::room::room_of;
use crate::rounds::{MOVES_GRANTED, leave};
use session::{Session, SliceEnd};
use std::alloc::Global;
use wires::{Came, Door, Wire};

/// Serves the editors whose wires a door accepts, one after the other, each over its wire as `drive` does. While
/// none is connected, a program that runs is given a slice of 100,000 moves after each poll of the door that
/// accepts no wire, and only where no program runs the next wire is waited for.
///
/// A call of a wire that fails ends its connection alone. A turn is taken by each connection that is accepted,
/// by each turn of a connection, and by each slice while no editor is connected; at most `turns` are taken.
/// Where serving ends while an editor is connected, its connection ends too.
///
/// - `Closed`: the door accepts no further connection, or the session refused to connect an editor, since
///   4,294,967,295 were connected before (or one was when this was called).
/// - `Fault`: a call of the door failed, which its `faults` counts.
/// - `Turns`: all turns were taken.
/// - `NoMemory`: no memory was left.
pub fn serve<D: Door, F: Files>(
    alloc: Global,
    session: &mut Session,
    door: &mut D,
    files: &mut F,
    turns: u64,
) -> DriveEnd
    ensures { OfEach session.old
        (λ s. Served (F.past files.old) (F.past files.new) (D.doorway door.old)
        (D.doorway door.new) turns s session.new result) }
{
    serve_told(alloc, session, door, files, &mut Unrecorded, turns)
}

/// Serves as `serve` does, and tells a recorder each event once it has happened, and before the next.
pub fn serve_told<D: Door, F: Files, R: Recorder>(
    alloc: Global,
    session: &mut Session,
    door: &mut D,
    files: &mut F,
    recorder: &mut R,
    turns: u64,
) -> DriveEnd
    ensures { OfEach session.old
        (λ s. ServedTold (known (F.past files.old) (R.told recorder.old))
        (known (F.past files.new) (R.told recorder.new)) (D.doorway door.old)
        (D.doorway door.new) turns s session.new result) }
{
    let Ok(mut room) = room_of(alloc) else {
        return DriveEnd::NoMemory;
    };
    let mut taken = 0;
    'serving: while taken < turns {
        match accept(
            alloc,
            session,
            door,
            files,
            recorder,
            &mut room,
            turns - taken,
        ) {
            Ok(count) => taken += count,
            Err(end) => return end,
        }
    }
    DriveEnd::Turns
}

// Accepts the next connection and serves it, where no editor is connected: the door is polled while a program
// runs, and waited for where none does. At most `left` turns are taken. It answers how many were, or how serving
// ends.
fn accept<D: Door, F: Files, R: Recorder>(
    alloc: Global,
    session: &mut Session,
    door: &mut D,
    files: &mut F,
    recorder: &mut R,
    room: &mut [u8],
    left: u64,
) -> Result<u64, DriveEnd>
    requires room { 0 < length room.old }
    requires piece { length room.old ≤ 65536 }
    requires left { 0 < left }
    ensures outcome { OfEach session.old
        (λ s. IteratedOrEnded (known (F.past files.old) (R.told recorder.old))
        (known (F.past files.new) (R.told recorder.new)) left result
        (D.doorway door.old) (D.doorway door.new) s session.new) }
    ensures some { IfOk result (λ count. (1 ≤ count) × (count ≤ left)) }
    ensures waits { (D.doorway door.new).waits
        ≡ waits_while (is_runnable session.old.now) (D.doorway door.old).waits }
{
    if session.runnable() {
        return poll_accept(alloc, session, door, files, recorder, room, left);
    }
    match door.accept_wait() {
        Ok(Some(mut wire)) => {
            serve_connection(alloc, session, &mut wire, files, recorder, room, left)
        },
        Ok(None) => Err(DriveEnd::Closed),
        Err(_) => Err(DriveEnd::Fault),
    }
}

// Polls the door, and serves the connection that was waiting; where none was, the program is given a slice.
fn poll_accept<D: Door, F: Files, R: Recorder>(
    alloc: Global,
    session: &mut Session,
    door: &mut D,
    files: &mut F,
    recorder: &mut R,
    room: &mut [u8],
    left: u64,
) -> Result<u64, DriveEnd>
    requires room { 0 < length room.old }
    requires piece { length room.old ≤ 65536 }
    requires left { 0 < left }
    requires runnable { is_runnable session.old.now ≡ true }
    ensures outcome { OfEach session.old
        (λ s. IteratedOrEnded (known (F.past files.old) (R.told recorder.old))
        (known (F.past files.new) (R.told recorder.new)) left result
        (D.doorway door.old) (D.doorway door.new) s session.new) }
    ensures some { IfOk result (λ count. (1 ≤ count) × (count ≤ left)) }
    ensures waits { (D.doorway door.new).waits ≡ (D.doorway door.old).waits }
{
    match door.accept_now() {
        Ok(Came::Wire(mut wire)) => {
            serve_connection(alloc, session, &mut wire, files, recorder, room, left)
        },
        Ok(Came::Nothing) => run_unattended(session, recorder, MOVES_GRANTED),
        Ok(Came::End) => Err(DriveEnd::Closed),
        Err(_) => Err(DriveEnd::Fault),
    }
}

// Gives a slice of `moves` moves to a program that runs while no editor is connected.
fn run_unattended<R: Recorder>(
    session: &mut Session,
    recorder: &mut R,
    moves: u32,
) -> Result<u64, DriveEnd>
    requires moves { moves ≡ moves_granted }
    requires runnable { is_runnable session.old.now ≡ true }
    ensures outcome { (past : KnownReads) (left : ℕ) (old new : Doorway)
        → Opened old new [] old.faults (one_more old.idle)
        → OfEach session.old (λ s. IteratedOrEnded (known past (R.told recorder.old))
        (known past (R.told recorder.new)) left result old new s session.new) }
    ensures one { IfOk result (λ count. count ≡ 1) }
{
    match session.slice(moves).ending {
        SliceEnd::NoMemory => Err(DriveEnd::NoMemory),
        _ => {
            recorder.tell(EventRef::Slice(moves));
            Ok(1)
        }
    }
}

// Connects an editor over an accepted wire, and drives its connection.
fn serve_connection<W: Wire, F: Files, R: Recorder>(
    alloc: Global,
    session: &mut Session,
    wire: &mut W,
    files: &mut F,
    recorder: &mut R,
    room: &mut [u8],
    left: u64,
) -> Result<u64, DriveEnd>
    requires room { 0 < length room.old }
    requires piece { length room.old ≤ 65536 }
    requires left { 0 < left }
    ensures outcome { (old new : Doorway)
        → Opened old new (W.line wire.old ∷ []) old.faults old.idle → OfEach session.old
        (λ s. IteratedOrEnded (known (F.past files.old) (R.told recorder.old))
        (known (F.past files.new) (R.told recorder.new)) left result old new s
        session.new) }
    ensures some { IfOk result (λ count. (1 ≤ count) × (count ≤ left)) }
{
    let Ok(_number) = session.connect() else {
        return Err(DriveEnd::Closed);
    };
    recorder.tell(EventRef::Connect);
    let driven = drive_in(alloc, session, wire, files, recorder, room, left - 1);
    match driven.end {
        DriveEnd::Closed | DriveEnd::Fault => Ok(driven.turns + 1),
        end => leave(session, recorder, end),
    }
}

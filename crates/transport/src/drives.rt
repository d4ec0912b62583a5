//! A session over a wire.
ghost use Rattle.std.specs.Prelude.{◌≡◌, ◌+◌, ◌<◌, ◌≤◌, length, true, Err, IfOk, ℕ};
ghost use Rattle.session.specs.Kept.{OfEach, Stands, see_kept};
ghost use Rattle.transport.specs.Drives.{Driven, DrivenTold, is_held, waits_at};
ghost use Rattle.transport.specs.Private.Drives.{DroveFor, Passed, Went};
ghost use Rattle.transport.specs.Files.{KnownReads, Records};
ghost use Rattle.transport.specs.Rounds as spec;
ghost use Rattle.transport.specs.Rounds.{due};
ghost use Rattle.transport.specs.Told.{KnownEvents, holds, known};
ghost use Rattle.wires.specs.Wires.{Line, one_more};

use crate::end::DriveEnd;
use crate::files::Files;
use crate::recorder::{EventRef, Recorder, Unrecorded};
use crate::room::room_of;
use crate::rounds::{MOVES_GRANTED, file_wanted, leave, take, turn_with};
use session::{EventError, Session, SliceEnd};
use std::alloc::Global;
use std::cmp;
use wires::{Received, Wire};

/// A program is held over a wire that cannot poll once it made that many moves since bytes came.
const MOST_MOVES: u64 = 10_000_000;

/// Drives the connection of a session over a wire: receives what the editor sends, and sends what waits
/// for it. When it ends other than by `Turns` and `NoMemory`, the connection has ended too. What closed
/// it, if the editor sent no frame or no message, `Session::link_fault` says.
///
/// A turn does what is due: while bytes wait, it sends some; when all is said on the connection, it ends
/// it; where a request waits, it answers it, with the file that it wants, out of `files`; where no program
/// runs, and only then, it waits for a piece. While a program runs, it looks for a piece over a wire that can poll, and
/// grants a slice of 100,000 moves where none has come; over another wire it grants the slice, and holds
/// the program once it made 10,000,000 moves since bytes came, or since the call where none came yet. A
/// piece has at most 65,536 bytes. At most `turns` are made.
///
/// - `Closed`: the input ended, or all was said on the connection.
/// - `Fault`: a call of the wire failed, which its `faults` counts.
/// - `Turns`: all turns were made.
/// - `NoMemory`: no memory was left. Where it was left for a piece that had come, the piece is lost, and
///   the connection has ended; else nothing is lost, and a later call continues.
pub fn drive<W: Wire, F: Files>(
    alloc: Global,
    session: &mut Session,
    wire: &mut W,
    files: &mut F,
    turns: u64,
) -> DriveEnd
    ensures { OfEach session.old
        (λ s. Driven (F.past files.old) (F.past files.new) (W.line wire.old) (W.line wire.new) turns
        s session.new result) }
{
    drive_told(alloc, session, wire, files, &mut Unrecorded, turns)
}

/// Drives as `drive` does, and tells a recorder each event once it has happened, and before the next.
pub fn drive_told<W: Wire, F: Files, R: Recorder>(
    alloc: Global,
    session: &mut Session,
    wire: &mut W,
    files: &mut F,
    recorder: &mut R,
    turns: u64,
) -> DriveEnd
    ensures { OfEach session.old
        (λ s. DrivenTold (known (F.past files.old) (R.told recorder.old))
        (known (F.past files.new) (R.told recorder.new)) (W.line wire.old) (W.line wire.new) turns
        s session.new result) }
{
    let Ok(mut room) = room_of(alloc) else {
        return DriveEnd::NoMemory;
    };
    drive_in(alloc, session, wire, files, recorder, &mut room, turns).end
}

/// How driving ended, and how many turns it took.
#[derive(Clone, Copy, Debug, PartialEq, Eq)]
pub(crate) struct Drove {
    pub end: DriveEnd,
    pub turns: u64,
}

/// Drives with this room for pieces.
pub(crate) fn drive_in<W: Wire, F: Files, R: Recorder>(
    alloc: Global,
    session: &mut Session,
    wire: &mut W,
    files: &mut F,
    recorder: &mut R,
    room: &mut [u8],
    turns: u64,
) -> Drove
    requires room { 0 < length room.old }
    requires piece { length room.old ≤ 65536 }
    ensures drove { OfEach session.old
        (λ s. DroveFor (known (F.past files.old) (R.told recorder.old))
        (known (F.past files.new) (R.told recorder.new)) (W.line wire.old) (W.line wire.new)
        turns result.turns s session.new result.end) }
    ensures few { result.turns ≤ turns }
{
    let mut since = 0;
    'driving: for made in 0..turns {
        match round(alloc, session, wire, files, recorder, room, since) {
            Ok(moves) => since = moves,
            Err(end) => {
                return Drove {
                    end,
                    turns: made + 1,
                };
            }
        }
    }
    Drove {
        end: DriveEnd::Turns,
        turns,
    }
}

// Does what is due, where a program made `since` moves since bytes came, and answers how many it has made then,
// or how driving ends.
fn round<W: Wire, F: Files, R: Recorder>(
    alloc: Global,
    session: &mut Session,
    wire: &mut W,
    files: &mut F,
    recorder: &mut R,
    room: &mut [u8],
    since: u64,
) -> Result<u64, DriveEnd>
    requires room { 0 < length room.old }
    requires piece { length room.old ≤ 65536 }
    requires since { since ≤ 10000000 }
    ensures went { OfEach session.old
        (λ s. Went (known (F.past files.old) (R.told recorder.old))
        (known (F.past files.new) (R.told recorder.new)) since result (W.line wire.old)
        (W.line wire.new) s session.new) }
    ensures since { IfOk result (λ moves. moves ≤ 10000000) }
    ensures waits { (W.line wire.new).waits
        ≡ waits_at (due (see_kept session.old)) (W.line wire.old).waits }
{
    if !session.waiting().is_empty() {
        return send(session, wire, recorder, since);
    }
    if session.finished() {
        return leave(session, recorder, DriveEnd::Closed);
    }
    if session.pending() > 0 {
        return answer(alloc, session, files, recorder, since);
    }
    if !session.runnable() {
        return receive(session, wire, recorder, room, since);
    }
    if wire.can_poll() {
        return poll(session, wire, recorder, room, since);
    }
    run(session, recorder, MOVES_GRANTED, since, false)
}

fn send<W: Wire, R: Recorder>(
    session: &mut Session,
    wire: &mut W,
    recorder: &mut R,
    since: u64,
) -> Result<u64, DriveEnd>
    requires { due (see_kept session.old) ≡ spec.Due.Send }
    ensures went { (past : KnownReads)
        → OfEach session.old (λ s. Went (known past (R.told recorder.old))
        (known past (R.told recorder.new)) since result (W.line wire.old)
        (W.line wire.new) s session.new) }
    ensures same { IfOk result (λ moves. moves ≡ since) }
    ensures waits { (W.line wire.new).waits ≡ (W.line wire.old).waits }
{
    match wire.send(session.waiting()) {
        Ok(count) => {
            let _ = session.sent(count);
            recorder.tell(EventRef::Sent(count));
            Ok(since)
        }
        Err(_) => leave(session, recorder, DriveEnd::Fault),
    }
}

fn answer<F: Files, R: Recorder>(
    alloc: Global,
    session: &mut Session,
    files: &mut F,
    recorder: &mut R,
    since: u64,
) -> Result<u64, DriveEnd>
    requires { due (see_kept session.old) ≡ spec.Due.Answer }
    ensures went { (line : Line)
        → OfEach session.old (λ s. Went (known (F.past files.old) (R.told recorder.old))
        (known (F.past files.new) (R.told recorder.new)) since result line line s session.new) }
    ensures same { IfOk result (λ moves. moves ≡ since) }
{
    let Ok(file) = file_wanted(alloc, session, files) else {
        return Err(DriveEnd::NoMemory);
    };
    match turn_with(session, recorder, file) {
        Ok(_) => Ok(since),
        Err(error) => match error {
            EventError::NoMemory => Err(DriveEnd::NoMemory),
            _ => Ok(since),
        },
    }
}

// Asks the wire for a piece, and gives the program a slice where none has come.
fn poll<W: Wire, R: Recorder>(
    session: &mut Session,
    wire: &mut W,
    recorder: &mut R,
    room: &mut [u8],
    since: u64,
) -> Result<u64, DriveEnd>
    requires room { 0 < length room.old }
    requires piece { length room.old ≤ 65536 }
    requires since { since ≤ 10000000 }
    requires due { due (see_kept session.old) ≡ spec.Due.Run }
    requires polls { (W.line wire.old).polls ≡ true }
    ensures went { (past : KnownReads)
        → OfEach session.old (λ s. Went (known past (R.told recorder.old))
        (known past (R.told recorder.new)) since result (W.line wire.old)
        (W.line wire.new) s session.new) }
    ensures since { IfOk result (λ moves. moves ≤ 10000000) }
    ensures waits { (W.line wire.new).waits ≡ (W.line wire.old).waits }
{
    match wire.recv_now(room) {
        Ok(Received::Bytes(count)) => take(session, recorder, &room[..count]),
        Ok(Received::Nothing) => run(session, recorder, MOVES_GRANTED, since, true),
        Ok(Received::End) => leave(session, recorder, DriveEnd::Closed),
        Err(_) => leave(session, recorder, DriveEnd::Fault),
    }
}

// Gives the program a slice of `moves` moves, over a wire that was looked at before, if it can be.
fn run<R: Recorder>(
    session: &mut Session,
    recorder: &mut R,
    moves: u32,
    since: u64,
    polls: bool,
) -> Result<u64, DriveEnd>
    requires moves { moves ≡ spec.moves_granted }
    requires since { since ≤ 10000000 }
    requires due { due (see_kept session.old) ≡ spec.Due.Run }
    ensures went { (past : KnownReads) (line line' : Line) → Passed polls line line'
        → OfEach session.old (λ s. Went (known past (R.told recorder.old))
        (known past (R.told recorder.new)) since result line line' s session.new) }
    ensures since { IfOk result (λ moves. moves ≤ 10000000) }
{
    let sliced = session.slice(moves);
    match sliced.ending {
        SliceEnd::NoMemory => Err(DriveEnd::NoMemory),
        _ => {
            recorder.tell(EventRef::Slice(moves));
            Ok(hold_after(session, recorder, since, sliced.moved, polls))
        }
    }
}

// Holds the program if it has made enough moves to be held, and answers how many it made.
fn hold_after<R: Recorder>(
    session: &mut Session,
    recorder: &mut R,
    since: u64,
    moved: u32,
    polls: bool,
) -> u64
    requires { since ≤ 10000000 }
    ensures counts { result ≡ spec.counted (since + moved) }
    ensures holds { OfEach session.old
        (λ s. Stands session.new (spec.held_after (is_held polls (since + moved)) s)) }
    ensures told { Records (R.told recorder.old) (R.told recorder.new)
        (holds (is_held polls (since + moved))) }
{
    let made = since + u64::from(moved);
    if !polls && made >= MOST_MOVES {
        session.hold();
        recorder.tell(EventRef::Hold);
    }
    cmp::min(made, MOST_MOVES)
}

// Waits for a piece.
fn receive<W: Wire, R: Recorder>(
    session: &mut Session,
    wire: &mut W,
    recorder: &mut R,
    room: &mut [u8],
    since: u64,
) -> Result<u64, DriveEnd>
    requires room { 0 < length room.old }
    requires piece { length room.old ≤ 65536 }
    requires due { due (see_kept session.old) ≡ spec.Due.Receive }
    ensures went { (past : KnownReads)
        → OfEach session.old (λ s. Went (known past (R.told recorder.old))
        (known past (R.told recorder.new)) since result (W.line wire.old)
        (W.line wire.new) s session.new) }
    ensures fewer { IfOk result (λ moves. moves ≤ since) }
    ensures waits { (W.line wire.new).waits ≡ one_more (W.line wire.old).waits }
{
    match wire.recv_wait(room) {
        Ok(0) => leave(session, recorder, DriveEnd::Closed),
        Ok(count) => take(session, recorder, &room[..count]),
        Err(_) => leave(session, recorder, DriveEnd::Fault),
    }
}

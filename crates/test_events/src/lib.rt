//! What the players of a session's events share.
#![tactic(auto)]

ghost use Rattle.std.specs.Prelude.{◌≡◌, Some, codes};

use session::{Bytes, Event};
use std::alloc::Global;
use testing::{Fault, bytes_of, parsed};

/// The event that a command is.
///
/// - `connect`, `drop`: an editor connects, and its connection ends.
/// - `recv PIECE`: a piece came. `sent COUNT`: COUNT bytes were sent.
/// - `turn`, `turn FILE`: the first request that waits is answered, where its file holds these bytes.
/// - `slice MOVES`: the program is given time. `hold`: it is held.
pub fn event_of(alloc: Global, arguments: &[&str]) -> Result<Event, Fault> {
    match arguments {
        [name] => plain_event(name).ok_or(Fault::NoCommand),
        ["recv", piece] => Ok(Event::Recv(Bytes::from_vec(bytes_of(alloc, piece)?))),
        ["turn", file] => Ok(Event::Turn(Some(Bytes::from_vec(bytes_of(alloc, file)?)))),
        ["slice", moves] => Ok(Event::Slice(parsed(moves)?)),
        ["sent", count] => Ok(Event::Sent(parsed(count)?)),
        _ => Err(Fault::NoCommand),
    }
}

/// The event without arguments that has this name.
fn plain_event(name: &str) -> Option<Event>
    ensures hold { name.now ≡ codes "hold" → result ≡ Some Event.Hold }
    ensures drop { name.now ≡ codes "drop" → result ≡ Some Event.DropConnection }
{
    match name {
        "connect" => Some(Event::Connect),
        "turn" => Some(Event::Turn(None)),
        "hold" => Some(Event::Hold),
        "drop" => Some(Event::DropConnection),
        _ => None,
    }
}

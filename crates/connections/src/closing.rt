//! The end of a connection of TCP.
ghost use Rattle.std.specs.Prelude.{◌+◌, ◌*◌, length};
ghost use Rattle.connections.specs.Lingering.{most_pieces, Dropped};

use crate::lingering::{Finished, Lingering, Next};
use crate::reading::look;
use blocking_io::can_read_within;
use std::io::Read;
use std::net::{Shutdown, TcpStream};
use std::os::fd::AsRawFd;

// How many bytes a piece has at most that is dropped.
const ROOM: usize = 4_096;

// How long it is waited for a piece, in milliseconds. Short waits, and many: all together they last a second at most, and a
// peer that sends slowly does not use them up with its first pieces.
const WAIT: u16 = 1;

/// Closes a connection so that the peer gets all that was sent: nothing more is sent, what the peer still sends is read and
/// dropped, and then it is closed. A connection that broke is closed at once.
pub(crate) fn close(mut stream: TcpStream) {
    if stream.shutdown(Shutdown::Write).is_ok() {
        let mut room = [0u8; ROOM];
        let _finished = drop_rest(&mut stream, &mut room);
    }
}

// Reads what still comes, and drops it: to its end, where a read fails, or as long as `Lingering` allows.
fn drop_rest<R: Read + AsRawFd>(reader: &mut R, room: &mut [u8]) -> Finished
    ensures { Dropped (R.remaining reader.old) (R.remaining reader.new)
        ((most_pieces + 1) * length room.old) }
{
    let mut lingering = Lingering::new();
    'lingering: loop {
        let found = look(reader, room);
        match lingering.after(found) {
            Ok(Next::Look) => {}
            Ok(Next::Wait) => wait_for_more(reader),
            Err(finished) => return finished,
        }
    }
}

// Waits until something comes, and not for long. Where that cannot be asked, the next look says so.
fn wait_for_more<R: AsRawFd>(reader: &R) {
    let _ = can_read_within(reader, WAIT);
}

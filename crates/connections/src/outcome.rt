//! What a look, a write and a knock come to.
ghost use Rattle.std.specs.Prelude.{◌≡◌};
ghost use Rattle.connections.specs.Outcomes as spec;

use crate::failure::{Failure, failed_accept, failed_read};
use std::io;
use wires::{Came, DoorFault, Received, WireFault};

/// What a read comes to that did not wait, into a room that has room for a byte or not.
pub(crate) fn received(read: io::Result<usize>, has_room: bool) -> Result<Received, WireFault>
    ensures { result ≡ spec.received read has_room }
{
    match read {
        Ok(0) if has_room => Ok(Received::End),
        Ok(count) => Ok(Received::Bytes(count)),
        Err(error) => match failed_read(&error) {
            Failure::Nothing => Ok(Received::Nothing),
            Failure::Again | Failure::Fault => Err(WireFault),
        },
    }
}

/// What a write comes to, of a piece that has bytes or not.
pub(crate) fn sent(written: io::Result<usize>, has_bytes: bool) -> Result<usize, WireFault>
    ensures { result ≡ spec.sent written has_bytes }
{
    match written {
        Ok(0) if has_bytes => Err(WireFault),
        Ok(count) => Ok(count),
        Err(_) => Err(WireFault),
    }
}

/// What an accept comes to that did not wait.
pub(crate) fn came<W: Drop>(accepted: io::Result<W>) -> Result<Came<W>, DoorFault>
    ensures { result ≡ spec.came accepted }
{
    match accepted {
        Ok(wire) => Ok(Came::Wire(wire)),
        Err(error) => match failed_accept(&error) {
            Failure::Nothing => Ok(Came::Nothing),
            Failure::Again | Failure::Fault => Err(DoorFault),
        },
    }
}

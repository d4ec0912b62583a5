//! Editors that connect over TCP.

use crate::disk::Disk;
use crate::editors::{Editors, serve_accepted};
use crate::exit_reason::exit_reason_by;
use commands::{ExitReason, VerboseDoor, say};
use connections::TcpDoor;
use session::{BODY_LIMIT, Session};
use std::io;
use std::net::{SocketAddr, TcpListener};
use transport::Recorder;

/// Listens on an address, says so on standard error, and serves the editors that connect. Where the address cannot be listened on,
/// that is a fault.
pub(crate) fn listen<R: Recorder>(
    rt: &HostRuntime,
    session: &mut Session,
    recorder: &mut R,
    address: &str,
    editors: Editors,
) -> ExitReason {
    let mut door = match open(rt, address) {
        Ok(door) => door,
        Err(error) => return exit_reason_by(&error),
    };
    say(rt, format_args!("listening on {address}\n"));
    let mut disk = Disk::new(rt);
    serve_accepted(rt.alloc(), session, &mut door, &mut disk, recorder, editors)
}

/// The same, told as it happens (`--verbose`): at which address it listens, or why not, and what is heard of each editor.
pub(crate) fn listen_verbosely<R: Recorder>(
    rt: &HostRuntime,
    session: &mut Session,
    recorder: &mut R,
    address: &str,
    editors: Editors,
) -> ExitReason {
    let (door, local) = match open_at(rt, address) {
        Ok(opened) => opened,
        Err(error) => {
            say(
                rt,
                format_args!("rvdap: cannot listen on {address}: {error}\n"),
            );
            return exit_reason_by(&error);
        }
    };
    say(rt, format_args!("listening on {local}\n"));
    let mut heard = VerboseDoor::new(rt, door, BODY_LIMIT);
    let mut disk = Disk::new(rt);
    serve_accepted(
        rt.alloc(),
        session,
        &mut heard,
        &mut disk,
        recorder,
        editors,
    )
}

fn open(rt: &HostRuntime, address: &str) -> io::Result<TcpDoor> {
    TcpDoor::new(TcpListener::bind(rt, address)?)
}

// A door, and the address that its peers come to.
fn open_at(rt: &HostRuntime, address: &str) -> io::Result<(TcpDoor, SocketAddr)> {
    let listener = TcpListener::bind(rt, address)?;
    let local = listener.local_addr()?;
    Ok((TcpDoor::new(listener)?, local))
}

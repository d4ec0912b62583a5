//! Plays a connection of TCP in one process: a client connects and writes what stands on standard input, the same process then accepts
//! it and drives a session over its wire, and what the client got is written to standard output.
#![tactic(auto)]

ghost use Rattle.std.specs.Prelude.{None};

use connections::TcpDoor;
use session::{Bytes, Config, Limits, Session};
use std::alloc::Global;
use std::io;
use std::io::{ErrorKind, Read, Write};
use std::net::{Shutdown, TcpListener, TcpStream};
use std::process::ExitCode;
use transport::{DriveEnd, FileFault, Files, drive};
use wires::Door;

/// The most turns of the connection: far more than what is played here takes.
const TURNS: u64 = 1_000;

/// No file can be read.
#[derive(Drop)]
struct NoFiles;

impl Files for NoFiles {
    ghost past = { λ files. None };

    fn read(&mut self, _alloc: Global, _path: &str) -> Result<Bytes, FileFault> {
        Err(FileFault::Unreadable)
    }
}

fn main(rt: HostRuntime) -> ExitCode {
    match play(&rt) {
        Ok(()) => ExitCode::SUCCESS,
        Err(_) => ExitCode::FAILURE,
    }
}

fn play(rt: &HostRuntime) -> io::Result<()> {
    let listener = TcpListener::bind(rt, "127.0.0.1:0")?;
    let mut client = TcpStream::connect(rt, listener.local_addr()?)?;
    client.write_all(&read_whole(rt, rt.stdin())?)?;
    client.shutdown(Shutdown::Write)?;
    let mut door = TcpDoor::new(listener)?;
    accept_and_drive(rt.alloc(), &mut door)?;
    rt.stdout().write_all(&read_whole(rt, client)?)
}

fn read_whole<R: Read + Drop>(rt: &HostRuntime, mut reader: R) -> io::Result<Vec<u8>> {
    let mut bytes = Vec::new(rt.alloc());
    reader.read_to_end(&mut bytes)?;
    Ok(bytes)
}

// Serves the first client to the end of its connection.
fn accept_and_drive(alloc: Global, door: &mut TcpDoor) -> io::Result<()> {
    let Ok(Some(mut wire)) = door.accept_wait() else {
        return Err(ErrorKind::NotConnected.into());
    };
    let mut session = new_session(alloc)?;
    let _ = session.connect();
    match drive(alloc, &mut session, &mut wire, &mut NoFiles, TURNS) {
        DriveEnd::Closed => Ok(()),
        _ => Err(ErrorKind::Other.into()),
    }
}

fn new_session(alloc: Global) -> io::Result<Session> {
    let config = Config {
        memory_size: 4_096,
        program: None,
    };
    match Session::new(alloc, config, Limits::greatest()) {
        Ok(session) => Ok(session),
        Err(_) => Err(ErrorKind::OutOfMemory.into()),
    }
}

//! Doors over TCP.
ghost use Rattle.std.specs.Prelude.{◌≡◌, ◌≢◌, ◌≤◌, ◌⊎◌, IfOk, IfErr, IsSome, Ok, None, true};
ghost use Rattle.std.specs.IoError.{error_kind, raw_os_error};
ghost use Rattle.std.specs.declared.io.Error.{Error};
ghost use Rattle.blocking_io.specs.Passing.{IsOfWait};
ghost use Rattle.blocking_io.specs.Retries.{IsAfter, Stays};
ghost use Rattle.wires.specs.Doors.{Knocks, Admits};
ghost use Rattle.wires.specs.Wires.{one_more};
ghost use Rattle.connections.specs.Failures.{failed_accept, is_made_again};

use crate::connection::{TcpWire, tcp_wire};
use crate::failure::{Failure, failed_accept, is_made_again};
use crate::outcome::came;
use crate::reading::wait_after;
use blocking_io::Retries;
use std::io;
use std::net::TcpListener;
use std::os::fd::AsRawFd;
use wires::{Came, Door, DoorFault, Wire};

/// A door where the peers of a listener come in. It never says that nobody will come any more.
#[derive(Drop)]
pub struct TcpDoor {
    listener: TcpListener,
    faults: u64,
    idle: u64,
    waits: u64,
}

impl TcpDoor {
    /// A door at this listener, which is made non-blocking: so a look never waits, also where a peer has left again.
    pub fn new(listener: TcpListener) -> io::Result<TcpDoor>
        ensures { IfOk result (λ door. ⟦<TcpDoor as Door>⟧.doorway door
            ≡ record { wires = None; faults = 0; idle = 0; waits = 0 }) }
    {
        listener.set_nonblocking(true)?;
        Ok(TcpDoor {
            listener,
            faults: 0,
            idle: 0,
            waits: 0,
        })
    }
}

// A listener, with something that holds of each error that an accept of it fails with, as of a `FallibleRead`.
trait FallibleAccept {
    type Peer: Drop;

    ghost fails_with: { Error → Type 0 };

    // Takes the peer that is first of those who wait, where its connection stands.
    fn first_peer(&self) -> io::Result<Self::Peer>
        ensures { IfErr result fails_with };
}

impl FallibleAccept for TcpListener {
    type Peer = TcpWire;

    ghost fails_with = { λ e. Unit {0} };

    fn first_peer(&self) -> io::Result<TcpWire> {
        let (stream, _address) = self.accept()?;
        tcp_wire(stream)
    }
}

// Takes the peer that is first of those who wait, and passes over those whose connection broke.
fn accept_once<L: FallibleAccept>(listener: &L, retries: &mut Retries) -> io::Result<L::Peer>
    ensures again { IfErr result
        (λ e. failed_accept (error_kind e) (raw_os_error e) ≢ Failure.Again) }
    ensures given { IfErr result (Stays L.fails_with retries.new) }
    ensures counts { retries.old ≤ retries.new }
{
    'accepting: loop {
        match listener.first_peer() {
            Ok(wire) => return Ok(wire),
            Err(error) => after_accept(error, retries)?,
        }
    }
}

// After an error of an accept: where the peer is passed over, or a signal interrupted it, the accept is to be made again,
// which is counted. Any other error stays, also that of an accept that found nobody.
fn after_accept(error: io::Error, retries: &mut Retries) -> io::Result<()>
    ensures { IsAfter retries.old error
        (is_made_again (failed_accept (error_kind error) (raw_os_error error))) result retries.new }
{
    let again = is_made_again(failed_accept(&error));
    retries.after(error, again)
}

// Takes the next peer, and waits for it.
fn accept_waiting<L: FallibleAccept + AsRawFd>(
    listener: &L,
    retries: &mut Retries,
) -> io::Result<L::Peer>
    ensures waited { IfErr result
        (λ e. failed_accept (error_kind e) (raw_os_error e) ≢ Failure.Nothing) }
    ensures given { IfErr result (Stays (λ e. L.fails_with e ⊎ IsOfWait e) retries.new) }
{
    'accepting: loop {
        match accept_once(listener, retries) {
            Ok(wire) => return Ok(wire),
            Err(error) => {
                let nobody = failed_accept(&error) == Failure::Nothing;
                wait_after(error, nobody, listener.as_raw_fd(), retries)?;
            }
        }
    }
}

impl Door for TcpDoor {
    type Wire = TcpWire;

    ghost doorway = { λ d. record {
      wires = None;
      faults = d.faults;
      idle = d.idle;
      waits = d.waits;
    } };

    fn accept_now(&mut self) -> Result<Came<TcpWire>, DoorFault>
        ensures counts { Knocks ⟦<TcpWire as Wire>⟧.line (⟦<TcpDoor as Door>⟧.doorway self.old)
            (⟦<TcpDoor as Door>⟧.doorway self.new) result }
        ensures waits { (⟦<TcpDoor as Door>⟧.doorway self.new).waits
            ≡ (⟦<TcpDoor as Door>⟧.doorway self.old).waits }
        ensures stays_open { result ≢ Ok Came.End }
    {
        let found = came(accept_once(&self.listener, &mut Retries::none()));
        match &found {
            Ok(Came::Nothing) => self.idle = self.idle.saturating_add(1),
            Ok(Came::Wire(_) | Came::End) => {}
            Err(DoorFault) => self.faults = self.faults.saturating_add(1),
        }
        found
    }

    fn accept_wait(&mut self) -> Result<Option<TcpWire>, DoorFault>
        ensures counts { Admits ⟦<TcpWire as Wire>⟧.line (⟦<TcpDoor as Door>⟧.doorway self.old)
            (⟦<TcpDoor as Door>⟧.doorway self.new) result }
        ensures waits { (⟦<TcpDoor as Door>⟧.doorway self.new).waits
            ≡ one_more (⟦<TcpDoor as Door>⟧.doorway self.old).waits }
        ensures stays_open { IfOk result IsSome }
    {
        self.waits = self.waits.saturating_add(1);
        match accept_waiting(&self.listener, &mut Retries::none()) {
            Ok(wire) => Ok(Some(wire)),
            Err(_) => {
                self.faults = self.faults.saturating_add(1);
                Err(DoorFault)
            }
        }
    }

    fn faults(&self) -> u64 {
        self.faults
    }

    fn idle(&self) -> u64 {
        self.idle
    }

    fn waits(&self) -> u64 {
        self.waits
    }
}

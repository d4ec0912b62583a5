//! Wires over TCP.
ghost use Rattle.std.specs.Prelude.{◌≡◌, IfOk, None, true};
ghost use Rattle.connections.specs.Failures.{Connected};
ghost use Rattle.connections.specs.Readers.{Begins};

use crate::closing::close;
use crate::stream::StreamWire;
use std::io;
use std::io::ErrorKind;
use std::net::TcpStream;
use wires::{Received, Wire, WireFault};

/// A wire over a connection of TCP. It can poll. Where the wire is dropped, the connection is closed, and the peer gets all
/// that was sent, within the bounds of docs/PROTOCOL.md, section 6: some 16 MiB that it still sends, and a second.
pub struct TcpWire {
    streams: StreamWire<TcpStream, TcpStream>,
}

impl Drop for TcpWire {
    fn drop(self) {
        let TcpWire { streams } = self;
        close(streams.into_reader());
    }
}

impl Wire for TcpWire {
    ghost line = { λ w. ⟦<StreamWire<TcpStream, TcpStream> as Wire>⟧.line w.streams };

    fn recv_now(&mut self, room: &mut [u8]) -> Result<Received, WireFault> {
        self.streams.recv_now(room)
    }

    fn recv_wait(&mut self, room: &mut [u8]) -> Result<usize, WireFault> {
        self.streams.recv_wait(room)
    }

    fn send(&mut self, piece: &[u8]) -> Result<usize, WireFault> {
        self.streams.send(piece)
    }

    fn can_poll(&self) -> bool {
        self.streams.can_poll()
    }

    fn faults(&self) -> u64 {
        self.streams.faults()
    }

    fn idle(&self) -> u64 {
        self.streams.idle()
    }

    fn waits(&self) -> u64 {
        self.streams.waits()
    }
}

/// A wire over this connection. What is sent goes out at once, and does not wait for what the peer acknowledges
/// (RFC 9293, section 3.7.4: the Nagle algorithm is off). The error is `ConnectionAborted` where that cannot be set, as
/// of a connection that broke, and else that of the system where it has no descriptor left.
pub fn tcp_wire(stream: TcpStream) -> io::Result<TcpWire>
    ensures line { IfOk result (λ wire. Begins (⟦<TcpWire as Wire>⟧.line wire) None None) }
    ensures polls { IfOk result (λ wire. (⟦<TcpWire as Wire>⟧.line wire).polls ≡ true) }
{
    let set = stream.set_nodelay(true);
    let handle = stream.try_clone();
    connected(set, stream, handle)
}

// A wire over a connection, by whether it could be set to send at once, and by the second handle of it: where it could not,
// it broke before it was accepted.
fn connected(
    set: io::Result<()>,
    stream: TcpStream,
    handle: io::Result<TcpStream>,
) -> io::Result<TcpWire>
    ensures line { IfOk result (λ wire. Begins (⟦<TcpWire as Wire>⟧.line wire) None None) }
    ensures polls { IfOk result (λ wire. (⟦<TcpWire as Wire>⟧.line wire).polls ≡ true) }
    ensures connected { Connected set handle result }
{
    if set.is_err() {
        return Err(ErrorKind::ConnectionAborted.into());
    }
    match handle {
        Ok(writer) => Ok(TcpWire {
            streams: StreamWire::with_polling(stream, writer, true),
        }),
        Err(error) => Err(error),
    }
}

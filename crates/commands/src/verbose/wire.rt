//! A wire whose traffic is heard.
ghost use Rattle.std.specs.Prelude.{◌≡◌, ◌≤◌, IfOk, length};

use crate::verbose::hearing::Hearing;
use crate::verbose::reasons::Reasons;
use crate::verbose::refusals::Answers;
use wires::{Received, Wire, WireFault};

/// A wire that passes all on as it is, and what goes over it is heard.
#[derive(Drop)]
pub struct VerboseWire<'rt, W> {
    wire: W,
    listener: Listener<'rt>,
}

// Who hears what goes over a wire.
#[derive(Drop)]
struct Listener<'rt> {
    rt: &'rt HostRuntime,
    hearing: Hearing,
    answers: Answers,
    reasons: Reasons,
}

impl<'rt> Listener<'rt> {
    fn new(rt: &'rt HostRuntime, longest: u32) -> Listener<'rt> {
        let alloc = rt.alloc();
        Listener {
            rt,
            hearing: Hearing::new(alloc, longest),
            answers: Answers::new(alloc),
            reasons: Reasons::none(alloc),
        }
    }

    fn hear(&mut self, piece: &[u8]) {
        self.hearing.hear(self.rt, piece, &mut self.reasons);
    }

    fn look(&mut self, piece: &[u8]) {
        self.answers.look(self.rt, piece, &mut self.reasons);
    }
}

impl<'rt, W> VerboseWire<'rt, W> {
    /// This wire, over which nothing went yet. Messages of an editor have at most `longest` bytes.
    pub fn new(rt: &'rt HostRuntime, wire: W, longest: u32) -> VerboseWire<'rt, W>
        ensures { result.wire ≡ wire }
    {
        VerboseWire {
            wire,
            listener: Listener::new(rt, longest),
        }
    }
}

impl<'rt, W: Wire> Wire for VerboseWire<'rt, W> {
    ghost line = { λ w. W.line w.wire };

    fn recv_now(&mut self, room: &mut [u8]) -> Result<Received, WireFault> {
        let received = self.wire.recv_now(room);
        if let Ok(Received::Bytes(count)) = received {
            self.listener.hear(&room[..count]);
        }
        received
    }

    fn recv_wait(&mut self, room: &mut [u8]) -> Result<usize, WireFault> {
        let received = self.wire.recv_wait(room);
        if let Ok(count) = received {
            self.listener.hear(&room[..count]);
        }
        received
    }

    fn send(&mut self, piece: &[u8]) -> Result<usize, WireFault> {
        let sent = self.wire.send(piece);
        if let Ok(count) = sent {
            self.listener.look(&piece[..count]);
        }
        sent
    }

    fn can_poll(&self) -> bool {
        self.wire.can_poll()
    }

    fn faults(&self) -> u64 {
        self.wire.faults()
    }

    fn idle(&self) -> u64 {
        self.wire.idle()
    }

    fn waits(&self) -> u64 {
        self.wire.waits()
    }
}

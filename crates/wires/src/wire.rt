//! A wire: what bytes come over and are sent over, and what may fail.
ghost use Rattle.std.specs.Prelude.{◌≡◌, ◌<◌, ◌≤◌, length, IfOk};
ghost use Rattle.wires.specs.Wires.{Line, Looks, Waits, Sends, IsWithin, one_more};

/// What a look for bytes found.
#[derive(Clone, Copy, Debug, PartialEq, Eq)]
pub enum Received {
    /// This many bytes came.
    Bytes(usize),
    /// None are there yet.
    Nothing,
    /// No more will come.
    End,
}

/// A call of a wire failed.
#[derive(Clone, Copy, Debug, PartialEq, Eq)]
pub struct WireFault;

/// What an editor is talked to over. A call that a signal interrupted is made again by the wire itself.
pub trait Wire {
    ghost line: { Self → Line };

    /// Reads what has come into the room, at least one byte where there is one, and does not wait.
    fn recv_now(&mut self, room: &mut [u8]) -> Result<Received, WireFault>
        ensures bound { IsWithin result room.new }
        ensures bytes { Looks (line self.old) (line self.new) result room.new }
        ensures waits { (line self.new).waits ≡ (line self.old).waits };

    /// Reads what comes into the room, and waits for it, which is counted. It gives 0 where no more will come.
    fn recv_wait(&mut self, room: &mut [u8]) -> Result<usize, WireFault>
        ensures bound { IfOk result (λ n. n ≤ length room.new) }
        ensures bytes { Waits (line self.old) (line self.new) result room.new }
        ensures waits { (line self.new).waits ≡ one_more (line self.old).waits };

    /// Sends a prefix of the piece, and says how many bytes: at least 1 of a piece that is not empty.
    fn send(&mut self, piece: &[u8]) -> Result<usize, WireFault>
        ensures bound { IfOk result (λ n. n ≤ length piece.now) }
        ensures some { IfOk result (λ n. 0 < length piece.now → 1 ≤ n) }
        ensures bytes { Sends (line self.old) (line self.new) result piece.now }
        ensures waits { (line self.new).waits ≡ (line self.old).waits };

    /// Whether `recv_now` can tell that nothing has come, without waiting.
    fn can_poll(&self) -> bool
        ensures { result ≡ (line self.now).polls };

    /// How many calls failed, counted up to 2^64 - 1.
    fn faults(&self) -> u64
        ensures { result ≡ (line self.now).faults };

    /// How many looks found nothing, counted up to 2^64 - 1.
    fn idle(&self) -> u64
        ensures { result ≡ (line self.now).idle };

    /// How many waits for bytes there were, counted up to 2^64 - 1.
    fn waits(&self) -> u64
        ensures { result ≡ (line self.now).waits };
}

impl<W: Wire> Wire for &mut W {
    ghost line = { λ w. W.line w.now };

    fn recv_now(&mut self, room: &mut [u8]) -> Result<Received, WireFault> {
        Wire::recv_now(&mut **self, room)
    }

    fn recv_wait(&mut self, room: &mut [u8]) -> Result<usize, WireFault> {
        Wire::recv_wait(&mut **self, room)
    }

    fn send(&mut self, piece: &[u8]) -> Result<usize, WireFault> {
        Wire::send(&mut **self, piece)
    }

    fn can_poll(&self) -> bool {
        Wire::can_poll(&**self)
    }

    fn faults(&self) -> u64 {
        Wire::faults(&**self)
    }

    fn idle(&self) -> u64 {
        Wire::idle(&**self)
    }

    fn waits(&self) -> u64 {
        Wire::waits(&**self)
    }
}

//! A stream whose calls wait.
ghost use Rattle.std.specs.Prelude.{◌≡◌, ◌⊎◌, IfErr, false};
ghost use Rattle.std.specs.Io.{ReadsAtMost, WritesAtMost};
ghost use Rattle.std.specs.Io.KnownBytes.{ReadConsumes, WriteAppends};
ghost use Rattle.std.specs.IoError.{error_kind};
ghost use Rattle.blocking_io.specs.Passing.{passes, IsOfWait};
ghost use Rattle.blocking_io.specs.Retries.{Stays};

use crate::attempts::{FallibleRead, FallibleWrite};
use crate::ready::{Direction, wait_after};
use crate::retries::Retries;
use std::io;
use std::io::{Read, Write};
use std::os::fd::AsRawFd;

/// A stream whose calls wait, also where its descriptor is non-blocking: a read until there is something
/// to read or the input has ended, a write until the descriptor takes bytes. A call that a signal
/// interrupted is made again. Where it was made again 2^64 - 1 times the error is `TimedOut`; any other error
/// is that of a call that failed, of the stream or of `poll`.
#[derive(Drop)]
pub struct Waiting<S> {
    stream: S,
}

impl<S> Waiting<S> {
    /// A stream whose calls are to wait.
    pub fn new(stream: S) -> Waiting<S>
        ensures { result.stream ≡ stream }
    {
        Waiting { stream }
    }
}

impl<S: Read + AsRawFd> Read for Waiting<S> {
    ghost remaining = { λ w. S.Read.remaining w.stream };

    fn read(&mut self, buf: &mut [u8]) -> io::Result<usize>
        ensures bound { ReadsAtMost result buf.new }
        ensures bytes { ReadConsumes (S.Read.remaining self.old.stream)
            (S.Read.remaining self.new.stream)
            result buf.new }
        ensures waited { IfErr result (λ e. passes (error_kind e) ≡ false) }
    {
        read_waiting(&mut self.stream, buf, &mut Retries::none())
    }
}

impl<S: Write + AsRawFd> Write for Waiting<S> {
    ghost contents = { λ w. S.Write.contents w.stream };

    fn write(&mut self, buf: &[u8]) -> io::Result<usize>
        ensures bound { WritesAtMost result buf.now }
        ensures bytes { WriteAppends (S.Write.contents self.old.stream)
            (S.Write.contents self.new.stream)
            result buf.now }
        ensures waited { IfErr result (λ e. passes (error_kind e) ≡ false) }
    {
        write_waiting(&mut self.stream, buf, &mut Retries::none())
    }

    fn flush(&mut self) -> io::Result<()> {
        self.stream.flush()
    }
}

// A read that waits.
fn read_waiting<S: FallibleRead + AsRawFd>(
    stream: &mut S,
    buf: &mut [u8],
    retries: &mut Retries,
) -> io::Result<usize>
    ensures bound { ReadsAtMost result buf.new }
    ensures bytes { ReadConsumes (S.Read.remaining stream.old)
        (S.Read.remaining stream.new)
        result buf.new }
    ensures waited { IfErr result (λ e. passes (error_kind e) ≡ false) }
    ensures given { IfErr result (Stays (λ e. S.fails_with e ⊎ IsOfWait e) retries.new) }
{
    'waiting: loop {
        match stream.attempt_read(buf) {
            Ok(count) => return Ok(count),
            Err(error) => wait_after(error, stream.as_raw_fd(), Direction::Read, retries)?,
        }
    }
}

// A write that waits.
fn write_waiting<S: FallibleWrite + AsRawFd>(
    stream: &mut S,
    buf: &[u8],
    retries: &mut Retries,
) -> io::Result<usize>
    ensures bound { WritesAtMost result buf.now }
    ensures bytes { WriteAppends (S.Write.contents stream.old)
        (S.Write.contents stream.new)
        result buf.now }
    ensures waited { IfErr result (λ e. passes (error_kind e) ≡ false) }
    ensures given { IfErr result (Stays (λ e. S.fails_with e ⊎ IsOfWait e) retries.new) }
{
    'waiting: loop {
        match stream.attempt_write(buf) {
            Ok(count) => return Ok(count),
            Err(error) => wait_after(error, stream.as_raw_fd(), Direction::Write, retries)?,
        }
    }
}

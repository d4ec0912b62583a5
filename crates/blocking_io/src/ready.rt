//! Waiting until a descriptor is ready.
ghost use Rattle.std.specs.Prelude.{◌≡◌, ◌<◌, ◌+◌, ◌⊎◌, OnOk, Err, ◌↔◌, IsOk, IfOk, IfErr, Some, true, false};
ghost use Rattle.std.specs.IoError.{error_kind, raw_os_error};
ghost use Rattle.blocking_io.specs.Passing.{passes, IsOfWait};
ghost use Rattle.blocking_io.specs.Retries.{most_retries, Stays};
ghost use Rattle.blocking_io.specs.Private.Polling.{events_of, has_ended, is_ready, Found};

use crate::retries::Retries;
use libc::net;
use libc::types::pollfd;
use std::io;
use std::io::ErrorKind;
use std::os::fd::{AsRawFd, RawFd};

/// Which way bytes go through a descriptor.
#[derive(Clone, Copy)]
pub(crate) enum Direction {
    /// They are read from it.
    Read,
    /// They are written to it.
    Write,
}

// The timeout of a `poll` that waits however long it takes.
const NO_LIMIT: i32 = -1;

// The timeout of a `poll` that does not wait.
const AT_ONCE: u16 = 0;

// How often `poll` is asked at most: where the system had no memory for one call, it may have some for the next.
const MOST_ASKS: u32 = 3;

/// After an error that passes, waits until the call would not block, however long it takes: it is then
/// to be made again, which is counted. A signal may end the wait early. Any other error stays.
pub(crate) fn wait_after(
    error: io::Error,
    fd: RawFd,
    direction: Direction,
    retries: &mut Retries,
) -> io::Result<()>
    ensures again { OnOk result
        ((retries.old < most_retries) × (retries.new ≡ retries.old + 1)) }
    ensures stays { passes (error_kind error) ≡ false → result ≡ Err error }
    ensures err { IfErr result (λ e. passes (error_kind e) ≡ false) }
    ensures given { IfErr result (Stays (λ e. (e ≡ error) ⊎ IsOfWait e) retries.new) }
{
    let passed = passes(&error);
    retries.after(error, passed)?;
    wait(fd, direction)
}

/// Waits until a read of the stream would not block, however long it takes. A signal may end the wait early.
pub fn wait_to_read<S: AsRawFd>(stream: &S) -> io::Result<()>
    ensures err { IfErr result IsOfWait }
{
    wait(stream.as_raw_fd(), Direction::Read)
}

/// Whether a read of the stream would not block: there is something to read, or its input has ended or is
/// broken, which the read then tells. It does not wait; where a signal interrupts it, it found nothing. A `poll` that fails
/// is asked again, twice at most.
pub fn can_read<S: AsRawFd>(stream: &S) -> io::Result<bool>
    ensures err { IfErr result (λ e. passes (error_kind e) ≡ false) }
{
    can_read_within(stream, AT_ONCE)
}

/// The same, but it waits for at most `milliseconds` where a read would block. A signal may end the wait early.
pub fn can_read_within<S: AsRawFd>(stream: &S, milliseconds: u16) -> io::Result<bool>
    ensures err { IfErr result (λ e. passes (error_kind e) ≡ false) }
{
    let (count, errno) = poll_one(stream.as_raw_fd(), Direction::Read, i32::from(milliseconds));
    found(count, errno)
}

// What a `poll` found whose wait has a limit, by its answer and the number of its error.
fn found(count: i32, errno: i32) -> io::Result<bool>
    ensures found { Found count errno result }
    ensures err { IfErr result (λ e. passes (error_kind e) ≡ false) }
{
    after_poll(count, errno)?;
    Ok(is_ready(count))
}

// Whether a descriptor is ready, by the answer of a `poll` whose wait has a limit.
fn is_ready(count: i32) -> bool
    ensures { result ≡ is_ready count }
{
    count > 0
}

// Whether an error passes by itself, so that the call may be made again: a signal interrupted it, or
// the descriptor is non-blocking and was not ready.
fn passes(error: &io::Error) -> bool
    ensures { result ≡ passes (error_kind error.now) }
{
    matches!(error.kind(), ErrorKind::Interrupted | ErrorKind::WouldBlock)
}

// Waits until a call in this direction would not block.
fn wait(fd: RawFd, direction: Direction) -> io::Result<()>
    ensures { IfErr result IsOfWait }
{
    let (count, errno) = poll_one(fd, direction, NO_LIMIT);
    after_poll(count, errno)
}

// Asks `poll` of one descriptor, and again where it failed: its last answer, and the number of its error.
fn poll_one(fd: RawFd, direction: Direction, timeout: i32) -> (i32, i32) {
    let mut answer = poll_once(fd, direction, timeout);
    for _ in 1..MOST_ASKS {
        if has_ended(answer.0, answer.1) {
            return answer;
        }
        answer = poll_once(fd, direction, timeout);
    }
    answer
}

fn poll_once(fd: RawFd, direction: Direction, timeout: i32) -> (i32, i32) {
    let mut asked = [pollfd {
        fd,
        events: events_of(direction),
        revents: 0,
    }];
    let count = net::poll(&mut asked, timeout);
    (count, os::errno())
}

// What `poll` is asked to wait for.
fn events_of(direction: Direction) -> i16
    ensures { result ≡ events_of direction }
{
    match direction {
        Direction::Read => net::POLLIN,
        Direction::Write => net::POLLOUT,
    }
}

// What a call of `poll` comes to, by its answer and the number of its error.
fn after_poll(count: i32, errno: i32) -> io::Result<()>
    ensures ok { IsOk result ↔ (has_ended count errno ≡ true) }
    ensures err { IfErr result
        (λ e. (raw_os_error e ≡ Some errno) × (passes (error_kind e) ≡ false)) }
{
    if has_ended(count, errno) {
        Ok(())
    } else {
        Err(io::Error::from_raw_os_error(errno))
    }
}

// Whether the wait of a `poll` has ended, by its answer and the number of its error: else it failed.
fn has_ended(count: i32, errno: i32) -> bool
    ensures { result ≡ has_ended count errno }
{
    count >= 0 || passes(&io::Error::from_raw_os_error(errno))
}

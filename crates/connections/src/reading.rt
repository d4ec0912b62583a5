//! Reads that do not fail where a signal interrupted them, and reads that wait.
ghost use Rattle.std.specs.Prelude.{◌≡◌, ◌==◌, ◌<◌, ◌≤◌, ◌+◌, ◌⊎◌, Err, IfErr, OnOk, ◌≢◌, length, not, true, false};
ghost use Rattle.blocking_io.specs.Passing.{IsOfWait};
ghost use Rattle.blocking_io.specs.Retries.{most_retries, IsAfter, Stays};
ghost use Rattle.std.specs.Io.{ReadsAtMost};
ghost use Rattle.std.specs.Io.KnownBytes.{ReadConsumes};
ghost use Rattle.std.specs.IoError.{error_kind};
ghost use Rattle.connections.specs.declared.failure.Failure.TheVariants.{Again, Nothing};
ghost use Rattle.connections.specs.Failures.{failed_read, is_made_again};
ghost use Rattle.connections.specs.Outcomes.{Looked};
ghost use Rattle.connections.specs.Readers.{LooksInto};
ghost use Rattle.wires.specs.Wires.{IsWithin};

use crate::failure::{Failure, failed_read, is_made_again};
use crate::outcome::received;
use blocking_io::{FallibleRead, Retries, can_read, wait_to_read};
use std::io;
use std::io::Read;
use std::os::fd::{AsRawFd, RawFd};
use wires::{Received, WireFault};

/// Reads once. A call that a signal interrupted is made again.
pub(crate) fn read_once<R: FallibleRead>(
    reader: &mut R,
    room: &mut [u8],
    retries: &mut Retries,
) -> io::Result<usize>
    ensures bound { ReadsAtMost result room.new }
    ensures bytes { ReadConsumes (R.remaining reader.old) (R.remaining reader.new) result room.new }
    ensures again { IfErr result (λ e. failed_read (error_kind e) ≢ Again) }
    ensures given { IfErr result (Stays R.fails_with retries.new) }
    ensures counts { retries.old ≤ retries.new }
{
    'reading: loop {
        match reader.attempt_read(room) {
            Ok(count) => return Ok(count),
            Err(error) => after_read(error, retries)?,
        }
    }
}

// After an error of a read: where a signal interrupted it, the read is to be made again, which is counted. Any other
// error stays, also that of a read that found nothing.
fn after_read(error: io::Error, retries: &mut Retries) -> io::Result<()>
    ensures { IsAfter retries.old error (is_made_again (failed_read (error_kind error))) result
        retries.new }
{
    let again = is_made_again(failed_read(&error));
    retries.after(error, again)
}

/// Reads what has come, and does not wait.
pub(crate) fn look<R: Read + AsRawFd>(
    reader: &mut R,
    room: &mut [u8],
) -> Result<Received, WireFault>
    ensures bound { IsWithin result room.new }
    ensures bytes { LooksInto (R.remaining reader.old) (R.remaining reader.new) result room.new }
{
    let ready = can_read(reader);
    look_where(ready, reader, room)
}

// What a look finds, by whether there is something to read: it reads only where there is, and a reader that cannot be asked
// is a fault.
fn look_where<R: Read>(
    ready: io::Result<bool>,
    reader: &mut R,
    room: &mut [u8],
) -> Result<Received, WireFault>
    ensures bound { IsWithin result room.new }
    ensures bytes { LooksInto (R.remaining reader.old) (R.remaining reader.new) result room.new }
    ensures ready { Looked ready (not (length room.old == 0)) result }
{
    match ready {
        Ok(true) => {
            let read = read_once(reader, room, &mut Retries::none());
            received(read, !room.is_empty())
        }
        Ok(false) => Ok(Received::Nothing),
        Err(_) => Err(WireFault),
    }
}

/// Reads, and waits where nothing has come yet, also where the descriptor is non-blocking.
pub(crate) fn read_waiting<R: FallibleRead + AsRawFd>(
    reader: &mut R,
    room: &mut [u8],
    retries: &mut Retries,
) -> io::Result<usize>
    ensures bound { ReadsAtMost result room.new }
    ensures bytes { ReadConsumes (R.remaining reader.old) (R.remaining reader.new) result room.new }
    ensures waited { IfErr result (λ e. failed_read (error_kind e) ≢ Nothing) }
    ensures given { IfErr result (Stays (λ e. R.fails_with e ⊎ IsOfWait e) retries.new) }
{
    'reading: loop {
        match read_once(reader, room, retries) {
            Ok(count) => return Ok(count),
            Err(error) => {
                let nothing = failed_read(&error) == Failure::Nothing;
                wait_after(error, nothing, reader.as_raw_fd(), retries)?;
            }
        }
    }
}

/// After an error of a call that found nothing, waits until a read of the descriptor would not block: the call
/// is then to be made again, which is counted. Any other error stays.
pub(crate) fn wait_after(
    error: io::Error,
    found_nothing: bool,
    descriptor: RawFd,
    retries: &mut Retries,
) -> io::Result<()>
    ensures again { OnOk result
        ((retries.old < most_retries) × (retries.new ≡ retries.old + 1)) }
    ensures stays { found_nothing ≡ false → result ≡ Err error }
    ensures waited { IfErr result
        (λ e. found_nothing ≡ true → failed_read (error_kind e) ≢ Nothing) }
    ensures given { IfErr result (Stays (λ e. (e ≡ error) ⊎ IsOfWait e) retries.new) }
    ensures last { retries.old ≡ most_retries → retries.new ≡ most_retries }
{
    retries.after(error, found_nothing)?;
    wait_to_read(&descriptor)
}

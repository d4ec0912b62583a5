//! Bytes to a writer, and what it has of them where it fails.
ghost use Rattle.std.specs.Prelude.{◌≡◌, ◌≢◌, IfErr, OnErr, OnOk};
ghost use Rattle.std.specs.Io.{WritesAtMost};
ghost use Rattle.std.specs.Io.KnownBytes.{Appends, WriteAppends};
ghost use Rattle.std.specs.IoError.{error_kind};
ghost use Rattle.std.specs.declared.io.ErrorKind.TheVariants.{Interrupted};
ghost use Rattle.blocking_io.specs.Passing.{is_interrupted};
ghost use Rattle.blocking_io.specs.Retries.{IsAfter, Stays};
ghost use Rattle.blocking_io.specs.Writing.{IsPartWritten};

use crate::attempts::FallibleWrite;
use crate::retries::Retries;
use std::io;
use std::io::{ErrorKind, Write};

/// Writes all of these bytes, by as many writes as it takes. A write that a signal interrupted is made again.
/// `Err`: a write failed, or took nothing where some bytes were left (`WriteZero`), or was made again
/// 2^64 - 1 times (`TimedOut`); the writer has the first bytes, and not all.
pub fn write_whole<W: Write>(writer: &mut W, bytes: &[u8]) -> io::Result<()>
    ensures ok { OnOk result (Appends (W.contents writer.old) (W.contents writer.new) bytes.now) }
    ensures err { OnErr result
        (IsPartWritten (W.contents writer.old) (W.contents writer.new) bytes.now) }
    ensures again { IfErr result (λ e. error_kind e ≢ Interrupted) }
{
    let mut written = 0;
    while written < bytes.len() {
        match write_some(writer, &bytes[written..]) {
            Ok(0) => return Err(io::Error::from(ErrorKind::WriteZero)),
            Ok(count) => written += count,
            Err(error) => return Err(error),
        }
    }
    Ok(())
}

/// One write of these bytes, or of the first of them, made again as long as signals interrupt it; the error is
/// `TimedOut` where that was 2^64 - 1 times.
pub fn write_some<W: Write>(writer: &mut W, bytes: &[u8]) -> io::Result<usize>
    ensures bound { WritesAtMost result bytes.now }
    ensures bytes { WriteAppends (W.contents writer.old) (W.contents writer.new) result bytes.now }
    ensures again { IfErr result (λ e. error_kind e ≢ Interrupted) }
{
    write_once(writer, bytes, &mut Retries::none())
}

// One write, made again as long as signals interrupt it.
fn write_once<W: FallibleWrite>(
    writer: &mut W,
    bytes: &[u8],
    retries: &mut Retries,
) -> io::Result<usize>
    ensures bound { WritesAtMost result bytes.now }
    ensures bytes { WriteAppends (W.contents writer.old) (W.contents writer.new) result bytes.now }
    ensures again { IfErr result (λ e. error_kind e ≢ Interrupted) }
    ensures given { IfErr result (Stays W.fails_with retries.new) }
{
    'writing: loop {
        match writer.attempt_write(bytes) {
            Ok(count) => return Ok(count),
            Err(error) => after_write(error, retries)?,
        }
    }
}

// After an error of a write: where a signal interrupted it, the write is to be made again, which is counted. Any other
// error stays, also that of a write that would block: one that is made again at once would find the same.
fn after_write(error: io::Error, retries: &mut Retries) -> io::Result<()>
    ensures { IsAfter retries.old error (is_interrupted (error_kind error)) result retries.new }
{
    let interrupted = is_interrupted(&error);
    retries.after(error, interrupted)
}

// Whether a signal interrupted the call.
fn is_interrupted(error: &io::Error) -> bool
    ensures { result ≡ is_interrupted (error_kind error.now) }
{
    error.kind() == ErrorKind::Interrupted
}

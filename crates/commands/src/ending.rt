//! The last thing that the program says, and its status.

ghost use Rattle.std.specs.Prelude.{IfSome, OnOk};
ghost use Rattle.std.specs.Io.KnownBytes.{Appends};

use crate::exit_reason::ExitReason;
use blocking_io::{Waiting, write_whole};
use std::alloc::Global;
use std::fmt::Display;
use std::io;
use std::io::Write;
use std::process::ExitCode;

/// The line on standard error, if there is one, and the status. Where the line can't be written, the
/// status still says it.
pub fn exit_with(rt: &HostRuntime, why: ExitReason) -> ExitCode {
    if let Some(reason) = why.reason() {
        say(rt, format_args!("rvdap: {reason}\n"));
    }
    ExitCode::from(why.status())
}

/// The line on standard error that a file is wrong, and the status.
pub fn fail_at<D: Display + Drop>(rt: &HostRuntime, file: &str, reason: D) -> ExitCode {
    say(rt, format_args!("rvdap: {file}: {reason}\n"));
    ExitCode::FAILURE
}

/// Says a text on standard error, and waits until that takes it. Where it fails, there is nobody to be told.
pub fn say<D: Display + Drop>(rt: &HostRuntime, text: D) {
    let _ = write_text(rt.alloc(), &mut Waiting::new(rt.stderr()), text);
}

/// Writes a text: all at once where there is memory for a copy, and else in its parts.
pub(crate) fn write_text<W: Write, D: Display + Drop>(
    alloc: Global,
    writer: &mut W,
    text: D,
) -> io::Result<()>
    ensures { OnOk result (IfSome (D.output text)
        (Appends (W.contents writer.old) (W.contents writer.new))) }
{
    match text.to_string(alloc) {
        Ok(copy) => write_whole(writer, copy.as_bytes()),
        Err(_) => writer.write_fmt(text),
    }
}

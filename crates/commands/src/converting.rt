//! `rvdap convert FILE`: a program of another assembler in this assembly language, on standard output.

use crate::ending::{exit_with, fail_at, say};
use crate::exit_reason::ExitReason;
use crate::text_file::{NoText, text_in};
use blocking_io::{Waiting, write_whole};
use convert::{Conversion, Reason, Remark, converted};
use diagnostics::explanation;
use std::process::ExitCode;

/// Converts the text in a file, writes it to standard output, and then what is told of it to standard error. The status is 0, and 1 where
/// something in it can't be said here, the file can't be read, standard output fails or no memory is left.
pub fn convert_file(rt: &HostRuntime, file: &str) -> ExitCode {
    let text = match text_in(rt, file) {
        Ok(text) => text,
        Err(NoText::Unreadable) => return fail_at(rt, file, "cannot read"),
        Err(NoText::NoMemory) => return exit_with(rt, ExitReason::NoMemory),
    };
    match converted(rt.alloc(), text.as_slice()) {
        Ok(conversion) => written(rt, file, &conversion),
        Err(_) => exit_with(rt, ExitReason::NoMemory),
    }
}

fn written(rt: &HostRuntime, file: &str, conversion: &Conversion) -> ExitCode {
    if write_whole(&mut Waiting::new(rt.stdout()), conversion.text.as_slice()).is_err() {
        return exit_with(rt, ExitReason::ReadOrWriteFault);
    }
    for remark in conversion.notes.as_slice() {
        tell(rt, file, "note", *remark);
    }
    for remark in conversion.errors.as_slice() {
        tell(rt, file, "error", *remark);
    }
    if conversion.errors.is_empty() {
        ExitCode::SUCCESS
    } else {
        ExitCode::FAILURE
    }
}

// A line on standard error, in the form of the GNU Coding Standards ("Formatting Error Messages").
fn tell(rt: &HostRuntime, file: &str, severity: &str, remark: Remark) {
    let line = remark.line;
    match remark.reason {
        Reason::Words(words) => say(rt, format_args!("{file}:{line}: {severity}: {words}\n")),
        Reason::Assembler(kind) => {
            let words = explanation(kind);
            say(
                rt,
                format_args!("{file}:{line}: {severity}: {kind}: {words}\n"),
            );
        }
    }
}

//! `rvdap asm FILE` and `rvdap labels FILE`: what is in a text of assembly, on standard output.

use crate::ending::{exit_with, fail_at};
use crate::exit_reason::ExitReason;
use crate::text_file::{NoText, text_in};
use assembler::{AsmError, AsmErrorKind};
use blocking_io::{Waiting, write_whole};
use listing::{LabelForm, ListFault, labels, listing};
use std::process::ExitCode;

// Why nothing, or not all, was written of a file.
enum AsmFault {
    // The file can't be read, or is too long.
    Unreadable,
    // There is no listing, or it was not written.
    Unlisted(ListFault),
}

/// Assembles the text in a file for a memory of 1 MiB, and writes its listing to standard output. The status is 0, or 1 with a line on
/// standard error.
pub fn list_file(rt: &HostRuntime, file: &str) -> ExitCode {
    ended(rt, file, write_listing(rt, file))
}

/// Assembles the text in a file for a memory of 1 MiB, and writes its labels to standard output, as JSON where that is asked for. The
/// status is 0, or 1 with a line on standard error.
pub fn list_labels(rt: &HostRuntime, file: &str, as_json: bool) -> ExitCode {
    ended(rt, file, write_labels(rt, file, as_json))
}

// The status of a listing, with a line on standard error where it failed.
fn ended(rt: &HostRuntime, file: &str, answer: Result<(), AsmFault>) -> ExitCode {
    match answer {
        Ok(()) => ExitCode::SUCCESS,
        Err(AsmFault::Unreadable) => fail_at(rt, file, "cannot read"),
        Err(AsmFault::Unlisted(ListFault::Assembly(error))) => fail_at(rt, file, error),
        Err(AsmFault::Unlisted(ListFault::Write)) => exit_with(rt, ExitReason::ReadOrWriteFault),
        Err(AsmFault::Unlisted(ListFault::NoMemory)) => exit_with(rt, ExitReason::NoMemory),
    }
}

fn write_listing(rt: &HostRuntime, file: &str) -> Result<(), AsmFault> {
    let text = read(rt, file)?;
    let mut output = Waiting::new(rt.stdout());
    match listing(rt.alloc(), text.as_slice(), &mut output) {
        Ok(()) => Ok(()),
        Err(fault) => Err(AsmFault::Unlisted(fault)),
    }
}

fn write_labels(rt: &HostRuntime, file: &str, as_json: bool) -> Result<(), AsmFault> {
    let text = read(rt, file)?;
    let form = if as_json {
        LabelForm::Json
    } else {
        LabelForm::Text
    };
    let lines = match labels(rt.alloc(), text.as_slice(), form) {
        Ok(lines) => lines,
        Err(error) => return Err(AsmFault::Unlisted(fault_of(error))),
    };
    match write_whole(&mut Waiting::new(rt.stdout()), lines.as_bytes()) {
        Ok(()) => Ok(()),
        Err(_) => Err(AsmFault::Unlisted(ListFault::Write)),
    }
}

fn fault_of(error: AsmError) -> ListFault {
    match error.kind {
        AsmErrorKind::NoMemory => ListFault::NoMemory,
        _ => ListFault::Assembly(error),
    }
}

fn read(rt: &HostRuntime, file: &str) -> Result<Vec<u8>, AsmFault> {
    match text_in(rt, file) {
        Ok(text) => Ok(text),
        Err(NoText::Unreadable) => Err(AsmFault::Unreadable),
        Err(NoText::NoMemory) => Err(AsmFault::Unlisted(ListFault::NoMemory)),
    }
}

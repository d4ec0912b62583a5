//! `rvdap check FILE..`: the errors of each text of assembly, on standard output.

ghost use Rattle.std.specs.Prelude.{◌≡◌};

use crate::ending::{exit_with, fail_at};
use crate::exit_reason::ExitReason;
use crate::text_file::{NoText, text_in};
use blocking_io::{Waiting, write_whole};
use diagnostics::{diagnose, diagnose_json};
use options::Text;
use std::alloc::AllocError;
use std::process::ExitCode;

// How the check of a file ended.
#[derive(Clone, Copy, PartialEq, Eq)]
enum Checked {
    // It assembles.
    Right,
    // It does not, and its errors were written.
    Wrong,
    // It can't be read, or is too long.
    Unreadable,
}

// Why a file was not checked.
enum CheckFault {
    // Standard output failed.
    Write,
    // No memory was left.
    NoMemory,
}

impl From<AllocError> for CheckFault {
    ghost use Rattle.commands.specs.declared.checking.CheckFault.TheVariants.{NoMemory};

    ghost from_gives = { λ _ fault. fault ≡ NoMemory };

    fn from(_: AllocError) -> CheckFault {
        CheckFault::NoMemory
    }
}

/// Checks the texts in files for a memory of 1 MiB, the first and the others, and writes the errors of each that has any to standard
/// output, as JSON where that is asked for. Where standard output fails or memory runs out, no other is checked. The status is 0 where
/// no file has an error, and else 1; a file that can't be read has a line on standard error.
pub fn check_files(rt: &HostRuntime, first: &str, others: &[Text], as_json: bool) -> ExitCode {
    let mut all_right = match is_right(rt, first, as_json) {
        Ok(right) => right,
        Err(why) => return exit_with(rt, why),
    };
    for file in others {
        match is_right(rt, file.as_str(), as_json) {
            Ok(right) => all_right = all_right && right,
            Err(why) => return exit_with(rt, why),
        }
    }
    if all_right {
        ExitCode::SUCCESS
    } else {
        ExitCode::FAILURE
    }
}

// Whether a file has no error. What is wrong with it was told.
fn is_right(rt: &HostRuntime, file: &str, as_json: bool) -> Result<bool, ExitReason> {
    match check_file(rt, file, as_json) {
        Ok(Checked::Right) => Ok(true),
        Ok(Checked::Wrong) => Ok(false),
        Ok(Checked::Unreadable) => {
            fail_at(rt, file, "cannot read");
            Ok(false)
        }
        Err(CheckFault::Write) => Err(ExitReason::ReadOrWriteFault),
        Err(CheckFault::NoMemory) => Err(ExitReason::NoMemory),
    }
}

// The text in a file is checked, and its errors are written, if it has any.
fn check_file(rt: &HostRuntime, file: &str, as_json: bool) -> Result<Checked, CheckFault> {
    let text = match text_in(rt, file) {
        Ok(text) => text,
        Err(NoText::Unreadable) => return Ok(Checked::Unreadable),
        Err(NoText::NoMemory) => return Err(CheckFault::NoMemory),
    };
    let told = if as_json {
        diagnose_json(rt.alloc(), file, text.as_slice())?
    } else {
        diagnose(rt.alloc(), file, text.as_slice())?
    };
    match told {
        None => Ok(Checked::Right),
        Some(lines) => {
            let mut output = Waiting::new(rt.stdout());
            match write_whole(&mut output, lines.as_bytes()) {
                Ok(()) => Ok(Checked::Wrong),
                Err(_) => Err(CheckFault::Write),
            }
        }
    }
}

//! The errors of lines: all of the first pass that finds one.

ghost use Rattle.std.specs.Prelude.{◌≡◌, ◌≤◌, IfOk, length, map};
ghost use Rattle.diagnostics.specs.Errors as spec;
ghost use Rattle.diagnostics.specs.Findings.{errors_found, program_of};

use crate::found::Found;
use crate::placing::{Places, place_all};
use crate::reading::{ReadLine, read_program, unreadable};
use crate::targets::check_targets;
use std::alloc::{AllocError, Global};

// Where the memory ends that a text is assembled for: it has 1 MiB from 0x00010000 on.
const MEMORY_LIMIT: u32 = 1_114_112;

/// The errors of the lines of a text, in their order. `Err`: no memory was left.
pub(crate) fn line_errors(alloc: Global, texts: &[&str]) -> Result<Vec<Found>, AllocError>
    requires { length texts.now ≤ 1048577 }
    ensures { IfOk result (λ list. errors_found list.items
        ≡ spec.line_errors (map (λ text. text.now) texts.now)) }
{
    match read_program(alloc, texts)? {
        None => unreadable(alloc, texts),
        Some(program) => program_errors(alloc, program.as_slice()),
    }
}

// The same of lines that were read.
fn program_errors(alloc: Global, program: &[ReadLine]) -> Result<Vec<Found>, AllocError>
    ensures { IfOk result (λ list. errors_found list.items
        ≡ spec.program_errors (program_of program.now)) }
{
    let Places { found, labels } = place_all(alloc, program, MEMORY_LIMIT)?;
    if !found.is_empty() {
        return Ok(found);
    }
    check_targets(alloc, program, &labels, MEMORY_LIMIT)
}

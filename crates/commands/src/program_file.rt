//! The text of a program that is to be assembled.

ghost use Rattle.std.specs.Prelude.{◌≤◌, IfOk, vec_len};

use crate::memory::MemorySize;
use crate::text_file::{NoText, text_in};
use assembler::{AsmError, AsmErrorKind, assemble};
use diagnostics::{diagnose, told};
use std::alloc::{AllocError, Global};

/// Why a file has no program.
#[derive(Drop)]
pub enum NoProgram {
    /// It can't be read, or is too long.
    Unreadable,
    /// It does not assemble: what `check_files` writes of it, line by line.
    Wrong(String),
    /// No memory was left.
    NoMemory,
}

/// The text in a file, if it assembles for this much memory. Errors are told as for 1 MiB; one that a text has only with less memory is
/// told alone.
pub fn program_text(rt: &HostRuntime, file: &str, memory: MemorySize) -> Result<Vec<u8>, NoProgram>
    ensures { IfOk result (λ text. vec_len text ≤ 1048576) }
{
    let text = match text_in(rt, file) {
        Ok(text) => text,
        Err(NoText::Unreadable) => return Err(NoProgram::Unreadable),
        Err(NoText::NoMemory) => return Err(NoProgram::NoMemory),
    };
    match assemble(rt.alloc(), text.as_slice(), memory.bytes) {
        Ok(_) => Ok(text),
        Err(error) => Err(no_program(rt.alloc(), file, text.as_slice(), error)),
    }
}

// Why a text is no program that does not assemble.
fn no_program(alloc: Global, file: &str, text: &[u8], error: AsmError) -> NoProgram {
    match error.kind {
        AsmErrorKind::NoMemory => NoProgram::NoMemory,
        _ => match lines_on(alloc, file, text, error) {
            Ok(lines) => NoProgram::Wrong(lines),
            Err(_) => NoProgram::NoMemory,
        },
    }
}

// What is told of a text that does not assemble.
fn lines_on(alloc: Global, file: &str, text: &[u8], error: AsmError) -> Result<String, AllocError> {
    match diagnose(alloc, file, text)? {
        Some(lines) => Ok(lines),
        None => told(alloc, file, text, error),
    }
}

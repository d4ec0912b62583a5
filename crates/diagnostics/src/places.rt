//! A line that does not fit where it stands.

use crate::explaining::explanation;
use crate::found::Misfit;
use assembler::AsmErrorKind;
use statements::Statement;
use std::alloc::{AllocError, Global};

/// A line of a text.
#[derive(Clone, Copy)]
pub(crate) struct Place<'a> {
    /// The number of the line, counted from 1.
    pub number: u32,
    /// The line.
    pub line: &'a str,
    /// What is out of range, where that is what is told of it.
    pub misfit: Misfit,
    /// Whether a name that was meant is sought.
    pub guesses: bool,
}

/// What is told of a line that is not at a multiple of 4, or whose target is too far. `Err`: no memory was left.
pub(crate) fn place_words(
    alloc: Global,
    misfit: Misfit,
    statement: Option<&Statement>,
) -> Result<String, AllocError> {
    match misfit {
        Misfit::Address => String::from_str(alloc, address_words(statement)),
        Misfit::Target(far) => target_words(alloc, far, statement),
        Misfit::Unknown => String::from_str(alloc, explanation(AsmErrorKind::OutOfRange)),
    }
}

fn address_words(statement: Option<&Statement>) -> &'static str {
    match statement {
        Some(
            Statement::Data { .. } | Statement::Space(_) | Statement::Align(_) | Statement::Nothing,
        )
        | None => "_start is not at a multiple of 4: write .align 2 in a line before it",
        Some(_) => "the instruction is not at a multiple of 4: write .align 2 in a line before it",
    }
}

// The target is this many bytes after the statement, or before it, where the number has the sign of 32 bits.
fn target_words(
    alloc: Global,
    far: u32,
    statement: Option<&Statement>,
) -> Result<String, AllocError> {
    if far % 2 != 0 {
        return String::from_str(alloc, "the target is at an odd address");
    }
    let (count, side) = if far < 0x8000_0000 {
        (far, "after")
    } else {
        (far.wrapping_neg(), "before")
    };
    if let Some(Statement::Branch { .. }) = statement {
        return format!(in alloc;
            "the target is {count} bytes {side} it; a branch reaches from 4096 before to 4094 after: branch over a j"
        );
    }
    format!(in alloc;
        "the target is {count} bytes {side} it; a jump reaches from 1048576 before to 1048574 after"
    )
}

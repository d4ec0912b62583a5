//! The errors that the passes find.

ghost use Rattle.std.specs.Prelude.{◌≡◌, ◌++◌, OnOk};
ghost use Rattle.diagnostics.specs.Errors as spec;
ghost use Rattle.diagnostics.specs.Findings.{errors_found};

use assembler::{AsmError, AsmErrorKind};
use std::alloc::AllocError;

/// What is out of range about the place of a line.
#[derive(Clone, Copy)]
pub(crate) enum Misfit {
    /// Its address.
    Address,
    /// The target of its statement, which is this many bytes away, as a signed number of 32 bits.
    Target(u32),
    /// It is not known which of the two.
    Unknown,
}

/// An error of a text.
#[derive(Clone, Copy)]
pub(crate) struct Found {
    /// The line, and what kind of error it has.
    pub error: AsmError,
    /// What is out of range, where that is its kind and the line can be read.
    pub misfit: Misfit,
}

/// An error of a kind at a line, if it has one.
pub(crate) fn error_if(line: u32, kind: Option<AsmErrorKind>) -> Option<AsmError>
    ensures { result ≡ spec.error_if line kind }
{
    match kind {
        None => None,
        Some(kind) => Some(AsmError { line, kind }),
    }
}

/// Adds an error, if there is one. `Err`: no memory was left.
pub(crate) fn add_error(
    found: &mut Vec<Found>,
    error: Option<AsmError>,
    misfit: Misfit,
) -> Result<(), AllocError>
    ensures { OnOk result
        (errors_found found.new.items ≡ errors_found found.old.items ++ spec.listed error) }
{
    match error {
        None => Ok(()),
        Some(error) => {
            found.push(Found { error, misfit })?;
            Ok(())
        }
    }
}

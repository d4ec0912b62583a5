//! The bytes of a program.
ghost use Rattle.std.specs.Prelude.{◌≡◌, ◌≤◌, ◌<◌, MatchResult};
ghost use Rattle.image.specs.Lines.{labels_of};
ghost use Rattle.image.specs.Memory.{first_address};
ghost use Rattle.assembler.specs.Contents.{content_at, content_error, AreParts};
ghost use Rattle.assembler.specs.Errors.{Reports};
ghost use Rattle.assembler.specs.Places as spec;
ghost use Rattle.assembler.specs.Private.Steps.{Writes};

use crate::contents::write;
use crate::error::{AsmError, AsmErrorKind};
use crate::layout::end_of_line;
use crate::program::Source;
use image::FIRST_ADDRESS;
use indexmap::IndexMap;
use std::alloc::Global;

/// The bytes of the lines of a program, each at its address. No line ends after the limit.
pub(crate) fn fill(
    alloc: Global,
    program: &[Source],
    labels: &IndexMap<String, u32>,
    limit: u32,
) -> Result<Vec<u8>, AsmError>
    requires { spec.end_of first_address program.now ≤ limit }
    ensures { MatchResult result
        (λ b. AreParts (labels_of labels.now.entries)
        (spec.places first_address program.now) b.items)
        (λ e. Reports e (content_error (labels_of labels.now.entries)
        (spec.places first_address program.now))) }
{
    let mut bytes = Vec::new(alloc);
    let mut address = FIRST_ADDRESS;
    for source in program {
        let Some(end) = end_of_line(source, address, limit) else {
            unreachable!();
        };
        if let Err(kind) = fill_line(&mut bytes, labels, address, end, source) {
            return Err(AsmError::reported_at(source.number, kind));
        }
        address = end;
    }
    Ok(bytes)
}

fn fill_line(
    bytes: &mut Vec<u8>,
    labels: &IndexMap<String, u32>,
    address: u32,
    end: u32,
    source: &Source,
) -> Result<(), AsmErrorKind>
    requires { end ≡ spec.end_of_line source.now address }
    ensures { Writes result (content_at
        (labels_of labels.now.entries) address source.now.line.statement) bytes.old.items
        bytes.new.items }
{
    match &source.line.statement {
        Some(statement) => write(bytes, labels, address, end, statement),
        None => Ok(()),
    }
}

//! The second pass: each line at its place.

ghost use Rattle.std.specs.Prelude.{◌≡◌, ◌≤◌, [], Some, IfOk, OnOk};
ghost use Rattle.std.specs.Option.{unwrap_or};
ghost use Rattle.image.specs.Lines.{labels_of};
ghost use Rattle.image.specs.Memory.{first_address};
ghost use Rattle.diagnostics.specs.Errors as spec;
ghost use Rattle.diagnostics.specs.Findings.{errors_found, program_of, source_of};
ghost use Rattle.diagnostics.specs.Private.Steps as steps;

use crate::addresses::{next_address, stands};
use crate::found::{Found, Misfit, add_error, error_if};
use crate::labels::{Labels, add_labels};
use crate::reading::ReadLine;
use assembler::AsmErrorKind;
use image::FIRST_ADDRESS;
use indexmap::IndexMap;
use std::alloc::{AllocError, Global};

/// What the pass finds.
#[derive(Drop)]
pub(crate) struct Places {
    /// The errors of lines at their places.
    pub found: Vec<Found>,
    /// The labels, each with the address at which it is defined first.
    pub labels: Labels,
}

// Where a line begins.
#[derive(Drop)]
struct Reached {
    // The labels before it, each with its first address.
    labels: Labels,
    // Its address, as long as none is wrong.
    address: Option<u32>,
}

/// What is wrong with lines at their places, in memory that ends at the limit. `Err`: no memory was left.
pub(crate) fn place_all(
    alloc: Global,
    program: &[ReadLine],
    limit: u32,
) -> Result<Places, AllocError>
    requires { first_address ≤ limit }
    ensures errors { IfOk result (λ places. errors_found places.found.items
        ≡ spec.place_errors limit [] (Some first_address) (program_of program.now)) }
    ensures labels { IfOk result (λ places. labels_of places.labels.entries
        ≡ steps.labels_after limit [] (Some first_address) (program_of program.now)) }
{
    let mut found = Vec::new(alloc);
    let mut reached = Reached {
        labels: IndexMap::new(alloc),
        address: Some(FIRST_ADDRESS),
    };
    for source in program {
        let kind = place(alloc, &mut reached, source, limit)?;
        add_error(&mut found, error_if(source.number, kind), Misfit::Address)?;
    }
    let Reached { labels, .. } = reached;
    Ok(Places { found, labels })
}

// What is wrong with a line at its place, if anything.
fn place(
    alloc: Global,
    reached: &mut Reached,
    source: &ReadLine,
    limit: u32,
) -> Result<Option<AsmErrorKind>, AllocError>
    requires { steps.LiesWithin limit reached.old.address }
    ensures kind { IfOk result (λ kind. kind ≡ spec.misplaced_at limit
        (labels_of reached.old.labels.entries) reached.old.address (source_of source.now)) }
    ensures labels { OnOk result (labels_of reached.new.labels.entries
        ≡ spec.with_labels (labels_of reached.old.labels.entries) (unwrap_or reached.old.address 0)
        source.now.line.labels) }
    ensures address { OnOk result (reached.new.address
        ≡ spec.next_address limit reached.old.address (source_of source.now)) }
    ensures within { OnOk result (steps.LiesWithin limit reached.new.address) }
{
    let address = reached.address;
    let names = source.line.labels.as_slice();
    let again = add_labels(alloc, &mut reached.labels, address.unwrap_or(0), names)?;
    reached.address = next_address(address, source, limit);
    Ok(misplaced(again, address, source, limit))
}

// What is wrong with a line that defines a label again, or does not.
fn misplaced(
    again: bool,
    address: Option<u32>,
    source: &ReadLine,
    limit: u32,
) -> Option<AsmErrorKind>
    requires { steps.LiesWithin limit address }
    ensures { result ≡ steps.misplaced_so limit again address (source_of source.now) }
{
    if again {
        return Some(AsmErrorKind::TwiceDefined);
    }
    match stands(address?, source, limit) {
        Ok(_) => None,
        Err(kind) => Some(kind),
    }
}

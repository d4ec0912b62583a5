//! The errors of a text, and what is told of them.

ghost use Rattle.std.specs.Prelude.{◌≡◌, ◌≤◌, ◌∷◌, ◌++◌, [], IfOk, IfSome, OnOk, length, map};
ghost use Rattle.std.specs.Str.Lines.{lines};
ghost use Rattle.assembler.specs.Program.{whole_error};
ghost use Rattle.diagnostics.specs.Diagnoses.{HasColumn, located};
ghost use Rattle.diagnostics.specs.Errors as spec;
ghost use Rattle.diagnostics.specs.Findings.{errors_found, finding_of, HaveColumns, located_in};

use crate::explaining::explanation;
use crate::faults::{Fault, fault_of};
use crate::found::{Found, Misfit};
use crate::labels::{Labels, labels_in};
use crate::line_numbers::{line_at, lines_of, numbered, text_read};
use crate::passes::line_errors;
use crate::places::Place;
use assembler::{AsmError, AsmErrorKind, TEXT_LIMIT, assemble};
use indexmap::IndexMap;
use std::alloc::{AllocError, Global};
use std::str;

/// How many bytes the memory has that a text is assembled for.
const MEMORY_SIZE: u32 = 1_048_576;

/// In the words on how many errors a name that was meant is sought: a text may have as many errors as lines.
const MOST_GUESSES: usize = 100;

/// An error of a text, and what is told of it.
#[derive(Drop)]
pub(crate) struct Told<'a> {
    /// The line, and what kind of error it has.
    pub error: AsmError,
    /// At which column, in which words.
    pub fault: Fault,
    /// The line itself. `None`: the text is no UTF-8 or too long.
    pub text: Option<&'a str>,
}

/// The errors of a text for a memory of 1 MiB, in the order of their lines: all of the first pass of the assembler that has one. `Err`: no
/// memory was left.
#[tactic(auto, using(crate::proofs::Reported::none_told))]
pub(crate) fn errors_in(alloc: Global, text: &[u8]) -> Result<Vec<Told<'_>>, AllocError>
    ensures errors { IfOk result (λ list. located_in list.items ≡ spec.errors_in text.now) }
    ensures columns { IfOk result (λ list. HaveColumns list.items) }
{
    match assemble(alloc, text, MEMORY_SIZE) {
        Ok(_) => Ok(Vec::new(alloc)),
        Err(error) => match error.kind {
            AsmErrorKind::NoMemory => Err(AllocError),
            _ => errors_with(alloc, text, error),
        },
    }
}

// The errors of a text that does not assemble. If it is wrong as a whole, it is so.
fn errors_with(alloc: Global, text: &[u8], whole: AsmError) -> Result<Vec<Told<'_>>, AllocError>
    requires { IfSome (whole_error text.now) (λ error. error ≡ whole) }
    ensures errors { IfOk result (λ list. located_in list.items ≡ spec.errors_in text.now) }
    ensures columns { IfOk result (λ list. HaveColumns list.items) }
{
    if text.len() > TEXT_LIMIT {
        return only(alloc, text, whole);
    }
    match str::from_utf8(text) {
        Ok(text) => errors_of_lines(alloc, text),
        Err(_) => only(alloc, text, whole),
    }
}

// One error.
fn only(alloc: Global, text: &[u8], error: AsmError) -> Result<Vec<Told<'_>>, AllocError>
    ensures errors { IfOk result (λ list. located_in list.items
        ≡ (error, spec.line_in text.now error.line) ∷ []) }
    ensures columns { IfOk result (λ list. HaveColumns list.items) }
{
    let told = told_of(alloc, text, error)?;
    let mut list = Vec::new(alloc);
    list.push(told)?;
    Ok(list)
}

// The errors of the lines of a text.
fn errors_of_lines(alloc: Global, text: &str) -> Result<Vec<Told<'_>>, AllocError>
    requires { length text.now ≤ 1048576 }
    ensures errors { IfOk result (λ list. located_in list.items
        ≡ spec.located_among (lines text.now) (spec.line_errors (lines text.now))) }
    ensures columns { IfOk result (λ list. HaveColumns list.items) }
{
    let texts = lines_of(alloc, text)?;
    let found = line_errors(alloc, texts.as_slice())?;
    let labels = labels_in(alloc, text)?;
    tell_all(alloc, texts.as_slice(), &labels, found.as_slice())
}

// What is told of errors among lines.
fn tell_all<'a>(
    alloc: Global,
    texts: &[&'a str],
    labels: &Labels,
    found: &[Found],
) -> Result<Vec<Told<'a>>, AllocError>
    ensures errors { IfOk result (λ list. located_in list.items
        ≡ spec.located_among (map (λ text. text.now) texts.now) (errors_found found.now)) }
    ensures columns { IfOk result (λ list. HaveColumns list.items) }
{
    let mut list = Vec::new(alloc);
    for one in found {
        add_told(alloc, &mut list, texts, labels, *one)?;
    }
    Ok(list)
}

// Adds what is told of an error.
fn add_told<'a>(
    alloc: Global,
    list: &mut Vec<Told<'a>>,
    texts: &[&'a str],
    labels: &Labels,
    found: Found,
) -> Result<(), AllocError>
    requires { HaveColumns list.old.items }
    ensures columns { OnOk result (HaveColumns list.new.items) }
    ensures errors { OnOk result (located_in list.new.items ≡ located_in list.old.items
        ++ (found.error, spec.numbered (map (λ text. text.now) texts.now) found.error.line) ∷ []) }
{
    let guesses = list.len() < MOST_GUESSES;
    let told = told_among(alloc, texts, labels, found, guesses)?;
    list.push(told)?;
    Ok(())
}

// What is told of an error among lines.
fn told_among<'a>(
    alloc: Global,
    texts: &[&'a str],
    labels: &Labels,
    found: Found,
    guesses: bool,
) -> Result<Told<'a>, AllocError>
    ensures error { IfOk result (λ told. located (finding_of told)
        ≡ (found.error, spec.numbered (map (λ text. text.now) texts.now) found.error.line)) }
    ensures column { IfOk result (λ told. HasColumn (finding_of told)) }
{
    match numbered(texts, found.error.line) {
        Some(line) => {
            let place = Place {
                number: found.error.line,
                line,
                misfit: found.misfit,
                guesses,
            };
            told_at(alloc, place, labels, found.error)
        }
        None => of_no_line(alloc, b"", found.error),
    }
}

// ---- what is told

/// What is told of one error of a text. `Err`: no memory was left.
pub(crate) fn told_of(alloc: Global, text: &[u8], error: AsmError) -> Result<Told<'_>, AllocError>
    ensures error { IfOk result (λ told. located (finding_of told)
        ≡ (error, spec.line_in text.now error.line)) }
    ensures column { IfOk result (λ told. HasColumn (finding_of told)) }
{
    match line_at(text, error.line) {
        Some(line) => {
            let labels = labels_for(alloc, text)?;
            let place = Place {
                number: error.line,
                line,
                misfit: misfit_of(alloc, text, error)?,
                guesses: true,
            };
            told_at(alloc, place, &labels, error)
        }
        None => of_no_line(alloc, text, error),
    }
}

// What is told of an error of a line.
fn told_at<'a>(
    alloc: Global,
    place: Place<'a>,
    labels: &Labels,
    error: AsmError,
) -> Result<Told<'a>, AllocError>
    ensures error { IfOk result (λ told. located (finding_of told)
        ≡ (error, Some place.entry.line.now)) }
    ensures column { IfOk result (λ told. HasColumn (finding_of told)) }
{
    Ok(Told {
        error,
        fault: fault_of(alloc, &place, labels, error.kind)?,
        text: Some(place.line),
    })
}

// What is told of a text that is no UTF-8 or too long.
fn of_no_line<'a>(alloc: Global, text: &[u8], error: AsmError) -> Result<Told<'a>, AllocError>
    ensures error { IfOk result (λ told. located (finding_of told) ≡ (error, None)) }
    ensures column { IfOk result (λ told. HasColumn (finding_of told)) }
{
    let column = match str::from_utf8(text) {
        Ok(_) => 0,
        Err(fault) => column_after(&text[..fault.valid_up_to()]),
    };
    Ok(Told {
        error,
        fault: Fault {
            column,
            words: String::from_str(alloc, explanation(error.kind))?,
        },
        text: None,
    })
}

// The column of the byte after these.
fn column_after(before: &[u8]) -> u32 {
    let on_line = before.iter().rev().take_while(|b| **b != b'\n').count();
    u32::try_from(on_line.saturating_add(1)).unwrap_or(u32::MAX)
}

// The labels of a text that the assembler reads.
fn labels_for(alloc: Global, text: &[u8]) -> Result<Labels, AllocError> {
    match text_read(text) {
        Some(text) => labels_in(alloc, text),
        None => Ok(IndexMap::new(alloc)),
    }
}

// What is out of range about an error, if it is one of the text.
fn misfit_of(alloc: Global, text: &[u8], error: AsmError) -> Result<Misfit, AllocError> {
    if error.kind != AsmErrorKind::OutOfRange {
        return Ok(Misfit::Unknown);
    }
    let Some(text) = text_read(text) else {
        return Ok(Misfit::Unknown);
    };
    let texts = lines_of(alloc, text)?;
    let found = line_errors(alloc, texts.as_slice())?;
    for one in found.as_slice() {
        if one.error == error {
            return Ok(one.misfit);
        }
    }
    Ok(Misfit::Unknown)
}

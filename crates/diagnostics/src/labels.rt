//! The labels of a text, and what is told of them.

ghost use Rattle.std.specs.Prelude.{◌≡◌, ◌||◌, IfOk, OnOk, is_some};
ghost use Rattle.image.specs.Lines.{labels_of};
ghost use Rattle.assembler.specs.Places.{defines_twice};
ghost use Rattle.statements.specs.Spelling.{named};
ghost use Rattle.diagnostics.specs.Errors as spec;

use crate::kinds::{Kind, is_of};
use crate::nearest::distance;
use indexmap::IndexMap;
use statements::{Item, LineError, Name, Statement, Target, is_name, read_line};
use std::alloc::{AllocError, Global};

/// Among how many labels at most the nearest one is sought.
const MOST_LABELS: usize = 1000;

/// Labels, each with the address, or the line, at which it is defined first.
pub(crate) type Labels = IndexMap<String, u32>;

/// The labels of a text, each with the first line that defines it. `Err`: no memory was left.
pub(crate) fn labels_in(alloc: Global, text: &str) -> Result<Labels, AllocError> {
    let mut labels = IndexMap::new(alloc);
    let mut number: u32 = 0;
    for line in text.lines() {
        number = number.saturating_add(1);
        add_line(alloc, &mut labels, number, line)?;
    }
    Ok(labels)
}

// Adds the labels of a line that can be read.
fn add_line(alloc: Global, labels: &mut Labels, number: u32, line: &str) -> Result<(), AllocError> {
    match read_line(alloc, line.as_bytes()) {
        Ok(line) => {
            add_labels(alloc, labels, number, line.labels.as_slice())?;
            Ok(())
        }
        Err(LineError::NoMemory) => Err(AllocError),
        Err(_) => Ok(()),
    }
}

/// Adds the labels of a line, each unless there is one of its name, and answers whether there was one of any. `Err`: no memory was left.
pub(crate) fn add_labels(
    alloc: Global,
    labels: &mut Labels,
    address: u32,
    names: &[Name],
) -> Result<bool, AllocError>
    ensures again { IfOk result (λ again. again
        ≡ defines_twice address (labels_of labels.old.entries) names.now) }
    ensures labels { OnOk result (labels_of labels.new.entries
        ≡ spec.with_labels (labels_of labels.old.entries) address names.now) }
{
    let mut again = false;
    for name in names {
        again = add_label(alloc, labels, address, name.as_str(), again)?;
    }
    Ok(again)
}

// Adds a label, unless there is one of its name, and answers whether there was, or was before.
fn add_label(
    alloc: Global,
    labels: &mut Labels,
    address: u32,
    name: &str,
    before: bool,
) -> Result<bool, AllocError>
    ensures again { IfOk result (λ again. again
        ≡ (before || is_some (named (labels_of labels.old.entries) name.now))) }
    ensures labels { OnOk result (labels_of labels.new.entries
        ≡ spec.with_label (labels_of labels.old.entries) address name.now) }
{
    if is_defined(labels, name) {
        return Ok(true);
    }
    let Ok(name) = String::from_str(alloc, name) else {
        return Err(AllocError);
    };
    let Ok(_) = labels.insert(name, address) else {
        return Err(AllocError);
    };
    Ok(before)
}

// Whether a line defines a label.
fn is_defined(labels: &Labels, name: &str) -> bool
    ensures { result ≡ is_some (named (labels_of labels.now.entries) name.now) }
{
    labels.contains_key(name)
}

/// A label that is defined twice.
#[derive(Clone, Copy)]
pub(crate) struct Twice<'a> {
    /// The label.
    pub name: &'a str,
    /// How many labels of its line come before it.
    pub index: usize,
    /// The line that defines it first.
    pub first: u32,
}

/// The first label of a line that is defined before, by an earlier line or by this one. `Err`: no memory was left.
pub(crate) fn twice_defined<'a>(
    alloc: Global,
    labels: &Labels,
    number: u32,
    names: &[Name<'a>],
) -> Result<Option<Twice<'a>>, AllocError> {
    let mut here = IndexMap::new(alloc);
    for (index, name) in names.iter().enumerate() {
        let name = name.as_str();
        if let Some(first) = labels.get(name) {
            if *first < number || here.contains_key(name) {
                let first = *first;
                return Ok(Some(Twice { name, index, first }));
            }
        }
        add_label(alloc, &mut here, number, name, false)?;
    }
    Ok(None)
}

/// The first label that a statement names and no line defines.
pub(crate) fn undefined<'a>(labels: &Labels, statement: &Statement<'a>) -> Option<&'a str> {
    match statement {
        Statement::Jump { target, .. } => undefined_target(labels, target),
        Statement::Branch { target, .. } => undefined_target(labels, target),
        Statement::Upper { label, .. } => if_undefined(labels, label),
        Statement::Lower { label, .. } => if_undefined(labels, label),
        Statement::StoreLower { label, .. } => if_undefined(labels, label),
        Statement::LoadAddress { label, .. } => if_undefined(labels, label),
        Statement::Call { label } => if_undefined(labels, label),
        Statement::Data { items, .. } => undefined_item(labels, items.as_slice()),
        _ => None,
    }
}

fn undefined_target<'a>(labels: &Labels, target: &Target<'a>) -> Option<&'a str> {
    match target {
        Target::Label(name) => if_undefined(labels, name),
        Target::Address(_) => None,
    }
}

fn if_undefined<'a>(labels: &Labels, name: &Name<'a>) -> Option<&'a str> {
    if is_defined(labels, name.as_str()) {
        None
    } else {
        Some(name.as_str())
    }
}

fn undefined_item<'a>(labels: &Labels, items: &[Item<'a>]) -> Option<&'a str> {
    for item in items {
        if let Item::Label(name) = item {
            if !is_defined(labels, name.as_str()) {
                return Some(name.as_str());
            }
        }
    }
    None
}

/// What is told of a label that no line defines. `Err`: no memory was left.
pub(crate) fn undefined_words(
    alloc: Global,
    labels: &Labels,
    name: &str,
    guesses: bool,
) -> Result<String, AllocError> {
    if is_of(alloc, Kind::Register, name)? {
        return format!(in alloc;
            "no line defines {name}, which is a register; jalr {name} goes where it says"
        );
    }
    if guesses {
        if let Some(near) = nearest_label(alloc, labels, name)? {
            return format!(in alloc; "no line defines {name}: {near}?");
        }
    }
    format!(in alloc; "no line defines {name}")
}

fn nearest_label<'a>(
    alloc: Global,
    labels: &'a Labels,
    name: &str,
) -> Result<Option<&'a str>, AllocError> {
    if labels.len() > MOST_LABELS || !is_name(name.as_bytes()) {
        return Ok(None);
    }
    let mut best = None;
    let mut least = usize::MAX;
    for label in labels.keys() {
        if let Some(edits) = distance(alloc, name, label.as_str())? {
            if edits < least {
                least = edits;
                best = Some(label.as_str());
            }
        }
    }
    Ok(best)
}

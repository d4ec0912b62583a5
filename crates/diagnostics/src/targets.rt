//! The third pass: what the names in statements mean, and how far targets are.

ghost use Rattle.std.specs.Prelude.{◌≡◌, ◌≤◌, ◌++◌, Some, IfOk, OnOk};
ghost use Rattle.image.specs.Lines.{labels_of};
ghost use Rattle.image.specs.Memory.{first_address};
ghost use Rattle.assembler.specs.Contents as contents;
ghost use Rattle.assembler.specs.Errors.{error_in};
ghost use Rattle.diagnostics.specs.Errors as spec;
ghost use Rattle.diagnostics.specs.Findings.{errors_found, program_of, source_of};
ghost use Rattle.diagnostics.specs.Private.Steps as steps;

use crate::addresses::next_address;
use crate::found::{Found, Misfit, add_error, error_if};
use crate::labels::Labels;
use crate::reading::ReadLine;
use assembler::AsmErrorKind;
use image::FIRST_ADDRESS;
use statements::{Item, Name, Statement, Target};
use std::alloc::{AllocError, Global};

/// What is wrong with the statements of lines, where these are the labels and their addresses, and memory ends at the limit. `Err`: no
/// memory was left.
pub(crate) fn check_targets(
    alloc: Global,
    program: &[ReadLine],
    labels: &Labels,
    limit: u32,
) -> Result<Vec<Found>, AllocError>
    requires { first_address ≤ limit }
    ensures { IfOk result (λ list. errors_found list.items ≡ steps.content_steps limit
        (labels_of labels.now.entries) (Some first_address) (program_of program.now)) }
{
    let mut found = Vec::new(alloc);
    let mut address = Some(FIRST_ADDRESS);
    for source in program {
        add_wrong(&mut found, labels, address, source)?;
        address = next_address(address, source, limit);
    }
    Ok(found)
}

// Adds what is wrong with the statement of a line, if anything.
fn add_wrong(
    found: &mut Vec<Found>,
    labels: &Labels,
    address: Option<u32>,
    source: &ReadLine,
) -> Result<(), AllocError>
    ensures { OnOk result (errors_found found.new.items ≡ errors_found found.old.items
        ++ spec.listed (spec.error_if source.now.number
        (steps.wrong_at (labels_of labels.now.entries) address (source_of source.now)))) }
{
    let Some(address) = address else {
        return Ok(());
    };
    let Some(statement) = &source.line.statement else {
        return Ok(());
    };
    let kind = wrong_statement(labels, address, statement);
    let misfit = Misfit::Target(distance(labels, address, statement));
    add_error(found, error_if(source.number, kind), misfit)
}

// What is wrong with a statement at an address, if anything.
fn wrong_statement(labels: &Labels, address: u32, statement: &Statement) -> Option<AsmErrorKind>
    ensures { result
        ≡ steps.wrong_statement (labels_of labels.now.entries) address statement.now }
{
    match statement {
        Statement::Jump { target, .. } => error_of(jump_offset(labels, address, target)),
        Statement::Branch { target, .. } => error_of(branch_offset(labels, address, target)),
        Statement::Upper { label, .. } => error_of(address_of(labels, label)),
        Statement::Lower { label, .. } => error_of(address_of(labels, label)),
        Statement::StoreLower { label, .. } => error_of(address_of(labels, label)),
        Statement::LoadAddress { label, .. } => error_of(address_of(labels, label)),
        Statement::Call { label } => error_of(address_of(labels, label)),
        Statement::Data { items, .. } => wrong_item(labels, items.as_slice()),
        _ => None,
    }
}

fn error_of(value: Result<u32, AsmErrorKind>) -> Option<AsmErrorKind>
    ensures { result ≡ error_in value }
{
    match value {
        Ok(_) => None,
        Err(kind) => Some(kind),
    }
}

fn wrong_item(labels: &Labels, items: &[Item]) -> Option<AsmErrorKind>
    ensures { result ≡ steps.wrong_items (labels_of labels.now.entries) items.now }
{
    for item in items {
        if let Err(kind) = value_of(labels, item) {
            return Some(kind);
        }
    }
    None
}

fn value_of(labels: &Labels, item: &Item) -> Result<u32, AsmErrorKind>
    ensures { result ≡ contents.value_of (labels_of labels.now.entries) item.now }
{
    match item {
        Item::Label(name) => address_of(labels, name),
        Item::Number(number) => Ok(*number),
    }
}

// ---- where a name and a target are

fn address_of(labels: &Labels, name: &Name) -> Result<u32, AsmErrorKind>
    ensures { result ≡ contents.address_of (labels_of labels.now.entries) name.now }
{
    match labels.get(name.as_str()) {
        Some(address) => Ok(*address),
        None => Err(AsmErrorKind::Undefined),
    }
}

fn target_of(labels: &Labels, target: &Target) -> Result<u32, AsmErrorKind>
    ensures { result ≡ contents.target_of (labels_of labels.now.entries) target.now }
{
    match target {
        Target::Label(name) => address_of(labels, name),
        Target::Address(address) => Ok(*address),
    }
}

// ---- how far a target may be

// How far the target of a jump at an address is, if it may be that far.
fn jump_offset(labels: &Labels, address: u32, target: &Target) -> Result<u32, AsmErrorKind>
    ensures { result ≡ contents.and_then
        (contents.target_of (labels_of labels.now.entries) target.now)
        (λ to. contents.jump_offset (contents.distance to address)) }
{
    let to = match target_of(labels, target) {
        Ok(to) => to,
        Err(kind) => return Err(kind),
    };
    within_jump(to.wrapping_sub(address))
}

fn within_jump(far: u32) -> Result<u32, AsmErrorKind>
    ensures { result ≡ contents.jump_offset far }
{
    if far.wrapping_add(1_048_576) < 2_097_152 && far % 2 == 0 {
        Ok(far)
    } else {
        Err(AsmErrorKind::OutOfRange)
    }
}

// The same of a branch.
fn branch_offset(labels: &Labels, address: u32, target: &Target) -> Result<u32, AsmErrorKind>
    ensures { result ≡ contents.and_then
        (contents.target_of (labels_of labels.now.entries) target.now)
        (λ to. contents.branch_offset (contents.distance to address)) }
{
    let to = match target_of(labels, target) {
        Ok(to) => to,
        Err(kind) => return Err(kind),
    };
    within_branch(to.wrapping_sub(address))
}

fn within_branch(far: u32) -> Result<u32, AsmErrorKind>
    ensures { result ≡ contents.branch_offset far }
{
    if far.wrapping_add(4096) < 8192 && far % 2 == 0 {
        Ok(far)
    } else {
        Err(AsmErrorKind::OutOfRange)
    }
}

// How far the target of a jump or a branch at an address is, as a signed number of 32 bits.
fn distance(labels: &Labels, address: u32, statement: &Statement) -> u32 {
    let to = match statement {
        Statement::Jump { target, .. } => target_of(labels, target),
        Statement::Branch { target, .. } => target_of(labels, target),
        _ => Ok(address),
    };
    to.unwrap_or(address).wrapping_sub(address)
}

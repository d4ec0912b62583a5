//! Where everything stands.
ghost use Rattle.std.specs.Prelude.{◌≡◌, ◌≤◌, ◌<◌, ◌+◌, ◌*◌, ◌^◌, ◌++◌, ◌∷◌, [], Some, None, if◌then◌else◌, nat_le, MatchResult, OnOk, IfErr, IfOk, is_none, length, List, Option, slice_get};
ghost use Rattle.std.specs.List.{list_any};
ghost use Rattle.std.specs.Str.{bytes_eq};
ghost use Rattle.image.specs.Lines.{labels_of};
ghost use Rattle.image.specs.Memory.{first_address};
ghost use Rattle.assembler.specs.Errors.{Reports};
ghost use Rattle.assembler.specs.Places as spec;
ghost use Rattle.assembler.specs.Private.Steps.{Adds, AddsOne, IsLayout, reported_kind, up_to};

use crate::error::{AsmError, AsmErrorKind};
use crate::program::Source;
use image::FIRST_ADDRESS;
use indexmap::IndexMap;
use statements::{Items, Line, Name, Statement, Width};
use std::alloc::Global;

/// Where everything stands.
#[derive(Drop)]
pub(crate) struct Layout {
    /// The labels and their addresses, in the order of the text.
    pub labels: IndexMap<String, u32>,
    /// A line with code each: its number, its address and how many words it has.
    pub rows: Vec<(u32, u32, u32)>,
    /// The address after the last line.
    pub end: u32,
}

// ---- sizes

// An address, if it is no more than the limit.
fn at_most(address: u32, size: u32, limit: u32) -> Option<u32>
    requires { address ≤ limit }
    ensures { result ≡ up_to limit (address + size) }
{
    if size <= limit - address {
        Some(address + size)
    } else {
        None
    }
}

fn end_of_items(width: Width, items: &Items, address: u32, limit: u32) -> Option<u32>
    requires { address ≤ limit }
    ensures { result ≡ up_to limit (address + length items.now * spec.bytes_in width) }
{
    let count = items.as_slice().len();
    let room = (limit - address) as usize;
    match width {
        Width::Byte => {
            if count <= room {
                Some(address + count as u32)
            } else {
                None
            }
        }
        Width::Half => {
            if count <= room / 2 {
                Some(address + count as u32 * 2)
            } else {
                None
            }
        }
        Width::Word => {
            if count <= room / 4 {
                Some(address + count as u32 * 4)
            } else {
                None
            }
        }
    }
}

fn end_of_padding(power: u32, address: u32, limit: u32) -> Option<u32>
    requires some { 0 < address }
    requires within { address ≤ limit }
    ensures { result ≡ up_to limit (address + spec.padding (2 ^ power) address) }
{
    if power >= 32 {
        return None;
    }
    let over = address % (1 << power);
    if over == 0 {
        return Some(address);
    }
    at_most(address, (1 << power) - over, limit)
}

/// The address after a statement at an address. `None`: it is more than the limit.
pub(crate) fn end_of_statement(statement: &Statement, address: u32, limit: u32) -> Option<u32>
    requires some { 0 < address }
    requires within { address ≤ limit }
    ensures { result ≡ up_to limit (address + spec.size_of statement.now address) }
{
    match statement {
        Statement::One(_) => at_most(address, 4, limit),
        Statement::Two(_, _) => at_most(address, 8, limit),
        Statement::Jump { .. } => at_most(address, 4, limit),
        Statement::Branch { .. } => at_most(address, 4, limit),
        Statement::Upper { .. } => at_most(address, 4, limit),
        Statement::Lower { .. } => at_most(address, 4, limit),
        Statement::StoreLower { .. } => at_most(address, 4, limit),
        Statement::LoadAddress { .. } => at_most(address, 8, limit),
        Statement::Call { .. } => at_most(address, 8, limit),
        Statement::Data { width, items } => end_of_items(*width, items, address, limit),
        Statement::Space(count) => at_most(address, *count, limit),
        Statement::Align(power) => end_of_padding(*power, address, limit),
        Statement::Nothing => at_most(address, 0, limit),
    }
}

/// The address after a line at an address. `None`: it is more than the limit.
pub(crate) fn end_of_line(source: &Source, address: u32, limit: u32) -> Option<u32>
    requires some { 0 < address }
    requires within { address ≤ limit }
    ensures { result ≡ up_to limit (spec.end_of_line source.now address) }
{
    match &source.line.statement {
        Some(statement) => end_of_statement(statement, address, limit),
        None => at_most(address, 0, limit),
    }
}

// How many words of code a statement has.
fn words_of(statement: &Statement) -> u32
    ensures { result ≡ spec.words_of statement.now }
{
    match statement {
        Statement::One(_) => 1,
        Statement::Two(_, _) => 2,
        Statement::Jump { .. } => 1,
        Statement::Branch { .. } => 1,
        Statement::Upper { .. } => 1,
        Statement::Lower { .. } => 1,
        Statement::StoreLower { .. } => 1,
        Statement::LoadAddress { .. } => 2,
        Statement::Call { .. } => 2,
        Statement::Data { .. } => 0,
        Statement::Space(_) => 0,
        Statement::Align(_) => 0,
        Statement::Nothing => 0,
    }
}

fn words_at(line: &Line) -> u32
    ensures { result ≡ spec.words_at line.now.statement }
{
    match &line.statement {
        Some(statement) => words_of(statement),
        None => 0,
    }
}

// ---- labels

// Whether one of the names is `_start`.
fn has_start(names: &[Name]) -> bool
    ensures { result ≡ list_any (λ name. bytes_eq name spec.start) names.now }
{
    for name in names {
        if name.as_str() == "_start" {
            return true;
        }
    }
    false
}

fn is_aligned(line: &Line) -> bool
    ensures { result ≡ spec.is_aligned line.now }
{
    words_at(line) != 0 || has_start(line.labels.as_slice())
}

// Adds labels at an address.
fn add_labels(
    alloc: Global,
    labels: &mut IndexMap<String, u32>,
    address: u32,
    names: &[Name],
) -> Result<(), AsmErrorKind>
    ensures { Adds result address (labels_of labels.old.entries) names.now
        (labels_of labels.new.entries) }
{
    for name in names {
        if let Err(kind) = add_label(alloc, labels, address, name.as_str()) {
            return Err(kind);
        }
    }
    Ok(())
}

fn add_label(
    alloc: Global,
    labels: &mut IndexMap<String, u32>,
    address: u32,
    name: &str,
) -> Result<(), AsmErrorKind>
    ensures { AddsOne result address (labels_of labels.old.entries) name.now
        (labels_of labels.new.entries) }
{
    if labels.contains_key(name) {
        return Err(AsmErrorKind::TwiceDefined);
    }
    let Ok(name) = String::from_str(alloc, name) else {
        return Err(AsmErrorKind::NoMemory);
    };
    let Ok(_) = labels.insert(name, address) else {
        return Err(AsmErrorKind::NoMemory);
    };
    Ok(())
}

// ---- lines

/// Where the lines of a program stand, if each ends at the limit or before it.
pub(crate) fn lay_out(alloc: Global, program: &[Source], limit: u32) -> Result<Layout, AsmError>
    requires { first_address ≤ limit }
    ensures { MatchResult result
        (λ l. IsLayout limit program.now (labels_of l.labels.entries) l.rows.items l.end)
        (λ e. Reports e (spec.place_error limit [] (spec.places first_address program.now))) }
{
    let mut layout = Layout {
        labels: IndexMap::new(alloc),
        rows: Vec::new(alloc),
        end: FIRST_ADDRESS,
    };
    for source in program {
        if let Err(kind) = place(alloc, &mut layout, source, limit) {
            return Err(AsmError::reported_at(source.number, kind));
        }
    }
    Ok(layout)
}

// Places one line more.
fn place(
    alloc: Global,
    layout: &mut Layout,
    source: &Source,
    limit: u32,
) -> Result<(), AsmErrorKind>
    requires some { 0 < layout.old.end }
    requires within { layout.old.end ≤ limit }
    ensures fits { OnOk result
        (spec.misplaced limit (labels_of layout.old.labels.entries)
        (spec.place layout.old.end source.now) ≡ None) }
    ensures labels { OnOk result
        (labels_of layout.new.labels.entries
        ≡ labels_of layout.old.labels.entries
        ++ spec.labels_at (spec.place layout.old.end source.now)) }
    ensures rows { OnOk result
        (layout.new.rows.items ≡ layout.old.rows.items
        ++ spec.rows_at (spec.place layout.old.end source.now)) }
    ensures end { OnOk result (layout.new.end ≡ spec.end_of_line source.now layout.old.end) }
    ensures err { IfErr result
        (λ kind. reported_kind kind
        (spec.misplaced limit (labels_of layout.old.labels.entries)
        (spec.place layout.old.end source.now))) }
{
    let address = layout.end;
    let names = source.line.labels.as_slice();
    if let Err(kind) = add_labels(alloc, &mut layout.labels, address, names) {
        return Err(kind);
    }
    if is_aligned(&source.line) && address % 4 != 0 {
        return Err(AsmErrorKind::OutOfRange);
    }
    let Some(end) = end_of_line(source, address, limit) else {
        return Err(AsmErrorKind::TooLarge);
    };
    if let Err(kind) = add_row(
        &mut layout.rows,
        source.number,
        address,
        words_at(&source.line),
    ) {
        return Err(kind);
    }
    layout.end = end;
    Ok(())
}

// Adds the row of a line that has code.
fn add_row(
    rows: &mut Vec<(u32, u32, u32)>,
    number: u32,
    address: u32,
    words: u32,
) -> Result<(), AsmErrorKind>
    ensures ok { OnOk result (rows.new.items ≡ rows.old.items ++ spec.row_of number address words) }
    ensures err { IfErr result (λ kind. kind ≡ AsmErrorKind.NoMemory) }
{
    if words == 0 {
        return Ok(());
    }
    match rows.push((number, address, words)) {
        Ok(()) => Ok(()),
        Err(_) => Err(AsmErrorKind::NoMemory),
    }
}

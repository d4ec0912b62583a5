//! The address of each line, as the assembler gives it, up to the first that is wrong.

ghost use Rattle.std.specs.Prelude.{◌≡◌, ◌≤◌, ◌<◌, ◌+◌, ◌*◌, ◌^◌, ◌==◌, IfOk, length, not};
ghost use Rattle.std.specs.List.{list_any};
ghost use Rattle.std.specs.Str.{bytes_eq};
ghost use Rattle.image.specs.Memory.{first_address};
ghost use Rattle.assembler.specs.Places as places;
ghost use Rattle.assembler.specs.Private.Steps.{up_to};
ghost use Rattle.diagnostics.specs.Errors as spec;
ghost use Rattle.diagnostics.specs.Findings.{source_of};
ghost use Rattle.diagnostics.specs.Private.Steps.{LiesWithin};

use crate::reading::ReadLine;
use assembler::AsmErrorKind;
use statements::{Items, Line, Name, Statement, Width};

/// The address after a line, as long as none is wrong. The limit is where memory ends.
pub(crate) fn next_address(address: Option<u32>, source: &ReadLine, limit: u32) -> Option<u32>
    requires { LiesWithin limit address }
    ensures value { result ≡ spec.next_address limit address (source_of source.now) }
    ensures within { LiesWithin limit result }
{
    match stands(address?, source, limit) {
        Ok(end) => Some(end),
        Err(_) => None,
    }
}

/// The address after a line at an address, or what is wrong with its own.
pub(crate) fn stands(address: u32, source: &ReadLine, limit: u32) -> Result<u32, AsmErrorKind>
    requires some { first_address ≤ address }
    requires within { address ≤ limit }
    ensures value { result ≡ spec.stands limit (places.place address (source_of source.now)) }
    ensures within { IfOk result (λ end. (address ≤ end) × (end ≤ limit)) }
{
    if is_aligned(&source.line) && address % 4 != 0 {
        return Err(AsmErrorKind::OutOfRange);
    }
    match end_of_line(source, address, limit) {
        Some(end) => Ok(end),
        None => Err(AsmErrorKind::TooLarge),
    }
}

// ---- where a line has to stand

// Whether a line has to stand at a multiple of 4.
fn is_aligned(line: &Line) -> bool
    ensures { result ≡ places.is_aligned line.now }
{
    words_at(line) != 0 || has_start(line.labels.as_slice())
}

// How many words of code a line has.
fn words_at(line: &Line) -> u32
    ensures { result ≡ places.words_at line.now.statement }
{
    match &line.statement {
        Some(statement) => words_of(statement),
        None => 0,
    }
}

fn words_of(statement: &Statement) -> u32
    ensures { result ≡ places.words_of statement.now }
{
    match statement {
        Statement::Two(_, _) => 2,
        Statement::LoadAddress { .. } => 2,
        Statement::Call { .. } => 2,
        Statement::Data { .. } => 0,
        Statement::Space(_) => 0,
        Statement::Align(_) => 0,
        Statement::Nothing => 0,
        _ => 1,
    }
}

// Whether one of the names is `_start`.
fn has_start(names: &[Name]) -> bool
    ensures { result ≡ list_any (λ name. bytes_eq name places.start) names.now }
{
    for name in names {
        if name.as_str() == "_start" {
            return true;
        }
    }
    false
}

// ---- where a line ends

// The address after a line at an address. `None`: it is more than the limit.
fn end_of_line(source: &ReadLine, address: u32, limit: u32) -> Option<u32>
    requires some { 0 < address }
    requires within { address ≤ limit }
    ensures { result ≡ up_to limit (places.end_of_line (source_of source.now) address) }
{
    match &source.line.statement {
        Some(statement) => end_of_statement(statement, address, limit),
        None => at_most(address, 0, limit),
    }
}

fn end_of_statement(statement: &Statement, address: u32, limit: u32) -> Option<u32>
    requires some { 0 < address }
    requires within { address ≤ limit }
    ensures { result ≡ up_to limit (address + places.size_of statement.now address) }
{
    match statement {
        Statement::Two(_, _) => at_most(address, 8, limit),
        Statement::LoadAddress { .. } => at_most(address, 8, limit),
        Statement::Call { .. } => at_most(address, 8, limit),
        Statement::Data { width, items } => end_of_items(*width, items, address, limit),
        Statement::Space(count) => at_most(address, *count, limit),
        Statement::Align(power) => end_of_padding(*power, address, limit),
        Statement::Nothing => at_most(address, 0, limit),
        _ => at_most(address, 4, limit),
    }
}

fn at_most(address: u32, size: u32, limit: u32) -> Option<u32>
    requires { address ≤ limit }
    ensures { result ≡ up_to limit (address + size) }
{
    if size <= limit - address {
        Some(address + size)
    } else {
        None
    }
}

fn end_of_items(width: Width, items: &Items, address: u32, limit: u32) -> Option<u32>
    requires { address ≤ limit }
    ensures { result ≡ up_to limit (address + length items.now * places.bytes_in width) }
{
    let count = items.as_slice().len();
    let room = (limit - address) as usize;
    match width {
        Width::Byte => {
            if count <= room {
                Some(address + count as u32)
            } else {
                None
            }
        }
        Width::Half => {
            if count <= room / 2 {
                Some(address + count as u32 * 2)
            } else {
                None
            }
        }
        Width::Word => {
            if count <= room / 4 {
                Some(address + count as u32 * 4)
            } else {
                None
            }
        }
    }
}

fn end_of_padding(power: u32, address: u32, limit: u32) -> Option<u32>
    requires some { 0 < address }
    requires within { address ≤ limit }
    ensures { result ≡ up_to limit (address + places.padding (2 ^ power) address) }
{
    if power >= 32 {
        return None;
    }
    let over = address % (1 << power);
    if over == 0 {
        return Some(address);
    }
    at_most(address, (1 << power) - over, limit)
}

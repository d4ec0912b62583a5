//! Where and why a machine stopped, told.

ghost use Rattle.std.specs.Prelude.{◌≡◌, ◌++◌, IfOk, OnOk, option_map, string_bytes};
ghost use Rattle.execution.specs.Telling as spec;

use image::LineTable;
use rv32i::push_digits;
use std::alloc::{AllocError, Global};
use std::marker::Model;

/// Where and why a machine stopped.
#[derive(Debug, Drop)]
pub struct Stop<'a> {
    /// How the file is called.
    pub file: &'a str,
    /// The number of the line whose code stands there, if there is one.
    pub line: Option<u32>,
    /// That line itself.
    pub source: Option<&'a str>,
    /// What happened, as `load access fault`.
    pub why: &'a str,
    /// What the program did wrong, if that can be seen.
    pub fault: Option<&'a str>,
}

impl<'a> Model for Stop<'a> {
    ghost use Rattle.std.specs.Prelude.{option_map};
    ghost use Rattle.execution.specs.Telling.{Stopped};

    ghost Value = { Stopped };

    ghost view = { λ s. record {
      file = s.file.now;
      line = s.line;
      source = option_map (λ t. t.now) s.source;
      why = s.why.now;
      fault = option_map (λ t. t.now) s.fault;
    } };
}

/// What is told of a machine that stopped at `pc`: `FILE:LINE: WHY: FAULT`, the line itself, and `at 0xADDRESS (LABEL+BYTES)`; and where
/// the program did nothing wrong `FILE:LINE: WHY at 0xADDRESS (LABEL+BYTES)` and the line itself. Each has a line feed. Number and line are
/// left out where there are none, and the label where none is there or below. `Err`: no memory was left.
pub fn stop_text(
    alloc: Global,
    stop: &Stop,
    table: &LineTable,
    pc: u32,
) -> Result<String, AllocError>
    ensures { IfOk result (λ told. string_bytes told ≡ spec.stop_text stop.now table.now pc) }
{
    let place = place(alloc, table, pc)?;
    let mut told = String::from_str(alloc, stop.file)?;
    push_number(alloc, &mut told, stop.line)?;
    told.push_str(": ")?;
    told.push_str(stop.why)?;
    push_rest(&mut told, stop.fault, place.as_str(), stop.source)?;
    Ok(told)
}

// What follows why it stopped.
fn push_rest(
    told: &mut String,
    fault: Option<&str>,
    place: &str,
    source: Option<&str>,
) -> Result<(), AllocError>
    ensures { OnOk result (string_bytes told.new ≡ string_bytes told.old
        ++ spec.rest (option_map (λ t. t.now) fault.entry) place.now
        (option_map (λ t. t.now) source.entry)) }
{
    match fault {
        Some(fault) => {
            told.push_str(": ")?;
            told.push_str(fault)?;
            told.push('\n')?;
            push_source(told, source)?;
            told.push_str(place)?;
            told.push('\n')
        }
        None => {
            told.push(' ')?;
            told.push_str(place)?;
            told.push('\n')?;
            push_source(told, source)
        }
    }
}

// A line of the program, if there is one.
fn push_source(told: &mut String, source: Option<&str>) -> Result<(), AllocError>
    ensures { OnOk result (string_bytes told.new ≡ string_bytes told.old
        ++ spec.shown (option_map (λ t. t.now) source.entry)) }
{
    match source {
        None => Ok(()),
        Some(line) => {
            told.push_str(line)?;
            told.push('\n')
        }
    }
}

// Where a machine stands.
fn place(alloc: Global, table: &LineTable, pc: u32) -> Result<String, AllocError>
    ensures { IfOk result (λ told. string_bytes told ≡ spec.place table.now pc) }
{
    let mut told = String::from_str(alloc, "at 0x")?;
    push_digits(&mut told, pc)?;
    push_label(alloc, &mut told, table.label_at(pc))?;
    Ok(told)
}

/// The label at which a program began that has no `_start`, where it is another than `main`; `None`: it has one, or began at none, or
/// at `main`. `entry` is where it began.
pub fn odd_beginning(table: &LineTable, entry: u32) -> Option<&str>
    ensures { option_map (λ t. t.now) result ≡ spec.odd_beginning table.now entry }
{
    if table.label_address("_start").is_some() {
        return None;
    }
    match table.label_at(entry) {
        Some((name, 0)) if name != "main" => Some(name),
        _ => None,
    }
}

/// What is told of such a beginning: `FILE: no _start: it began at LABEL, line LINE` with a line feed. `Err`: no memory was left.
pub fn beginning_text(
    alloc: Global,
    file: &str,
    label: &str,
    line: u32,
) -> Result<String, AllocError>
    ensures { IfOk result (λ told. string_bytes told
        ≡ spec.beginning_text file.now label.now line) }
{
    format!(in alloc; "{file}: no _start: it began at {label}, line {line}\n")
}

// A line's number, if there is one.
fn push_number(alloc: Global, told: &mut String, line: Option<u32>) -> Result<(), AllocError>
    ensures { OnOk result (string_bytes told.new ≡ string_bytes told.old ++ spec.number_of line) }
{
    match line {
        None => Ok(()),
        Some(line) => {
            let number = line.to_string(alloc)?;
            told.push(':')?;
            told.push_str(number.as_str())
        }
    }
}

// A label, and how many bytes above it, if there is one.
fn push_label(
    alloc: Global,
    told: &mut String,
    label: Option<(&str, u32)>,
) -> Result<(), AllocError>
    ensures { OnOk result (string_bytes told.new
        ≡ string_bytes told.old
        ++ spec.label_of (option_map (λ l. (l.0.now, l.1)) label.entry)) }
{
    match label {
        None => Ok(()),
        Some((name, above)) => {
            told.push_str(" (")?;
            told.push_str(name)?;
            push_above(alloc, told, above)?;
            told.push(')')
        }
    }
}

// How many bytes above a label, unless none.
fn push_above(alloc: Global, told: &mut String, above: u32) -> Result<(), AllocError>
    ensures { OnOk result (string_bytes told.new ≡ string_bytes told.old ++ spec.above above) }
{
    if above == 0 {
        return Ok(());
    }
    let bytes = above.to_string(alloc)?;
    told.push('+')?;
    told.push_str(bytes.as_str())
}

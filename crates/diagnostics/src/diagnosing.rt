//! The errors of a text, told as compilers tell them.

ghost use Rattle.std.specs.Prelude.{◌≡◌, ◌++◌, List, IfOk, OnOk, option_map, string_bytes};
ghost use Rattle.std.specs.List.{flat_map};
ghost use Rattle.diagnostics.specs.Diagnoses as spec;
ghost use Rattle.diagnostics.specs.Diagnoses.{AreFindings, Finding, HasColumn};
ghost use Rattle.diagnostics.specs.Errors.{line_in};
ghost use Rattle.diagnostics.specs.Findings.{finding_of, findings_of};

use crate::errors::{Told, errors_in, told_of};
use assembler::AsmError;
use std::alloc::{AllocError, Global};

/// What is told of the errors of a text, if it has any, for a memory of 1 MiB: of each `FILE:LINE:COLUMN: error: KIND: WORDS`, and then the
/// line itself, each with a line feed. The first is the one that the assembler reports. Both numbers are left out where the text is too
/// long, and the line itself where the text is no UTF-8 or is too long. `file` is how the file is called. `Err`: no memory was left.
pub fn diagnose(alloc: Global, file: &str, text: &[u8]) -> Result<Option<String>, AllocError>
    ensures { IfOk result (λ lines. (list : List Finding) × AreFindings text.now list
        × (option_map string_bytes lines ≡ spec.diagnosis file.now list)) }
{
    let list = errors_in(alloc, text)?;
    let lines = lines_of(alloc, file, list.as_slice())?;
    Ok(lines)
}

// What is told of errors, if there are any.
fn lines_of(alloc: Global, file: &str, list: &[Told]) -> Result<Option<String>, AllocError>
    ensures { IfOk result (λ lines. option_map string_bytes lines
        ≡ spec.diagnosis file.now (findings_of list.now)) }
{
    if list.is_empty() {
        return Ok(None);
    }
    let lines = all_lines(alloc, file, list)?;
    Ok(Some(lines))
}

fn all_lines(alloc: Global, file: &str, list: &[Told]) -> Result<String, AllocError>
    ensures { IfOk result (λ lines. string_bytes lines
        ≡ flat_map (spec.told file.now) (findings_of list.now)) }
{
    let mut lines = String::new(alloc);
    for told in list {
        push_told(alloc, &mut lines, file, told)?;
    }
    Ok(lines)
}

/// What is told of one error of a text, as above. `Err`: no memory was left.
pub fn told(alloc: Global, file: &str, text: &[u8], error: AsmError) -> Result<String, AllocError>
    ensures { IfOk result (λ lines. (finding : Finding) × (finding.error ≡ error)
        × (finding.line ≡ line_in text.now error.line)
        × HasColumn finding × (string_bytes lines ≡ spec.told file.now finding)) }
{
    let told = told_of(alloc, text, error)?;
    let mut lines = String::new(alloc);
    push_told(alloc, &mut lines, file, &told)?;
    Ok(lines)
}

// What is told of an error.
fn push_told(alloc: Global, lines: &mut String, file: &str, told: &Told) -> Result<(), AllocError>
    ensures { OnOk result (string_bytes lines.new ≡ string_bytes lines.old
        ++ spec.told file.now (finding_of told.now)) }
{
    push_place(alloc, lines, file, told)?;
    push_words(lines, told)?;
    push_line(lines, told.text)
}

// What is wrong.
fn push_words(lines: &mut String, told: &Told) -> Result<(), AllocError>
    ensures { OnOk result (string_bytes lines.new ≡ string_bytes lines.old
        ++ spec.said (finding_of told.now)) }
{
    lines.push_str(": error: ")?;
    lines.push_str(told.error.kind.name())?;
    lines.push_str(": ")?;
    lines.push_str(told.fault.words.as_str())?;
    lines.push('\n')
}

// The file, the line and the column.
fn push_place(alloc: Global, lines: &mut String, file: &str, told: &Told) -> Result<(), AllocError>
    ensures { OnOk result (string_bytes lines.new ≡ string_bytes lines.old
        ++ spec.place file.now (finding_of told.now)) }
{
    lines.push_str(file)?;
    push_number(alloc, lines, told.error.line)?;
    push_number(alloc, lines, told.fault.column)
}

// A line, if there is one.
fn push_line(lines: &mut String, line: Option<&str>) -> Result<(), AllocError>
    ensures { OnOk result (string_bytes lines.new ≡ string_bytes lines.old
        ++ spec.shown (option_map (λ l. l.now) line.entry)) }
{
    match line {
        None => Ok(()),
        Some(line) => {
            lines.push_str(line)?;
            lines.push('\n')
        }
    }
}

// The number of a line or a column, where it has one.
fn push_number(alloc: Global, lines: &mut String, number: u32) -> Result<(), AllocError>
    ensures { OnOk result (string_bytes lines.new ≡ string_bytes lines.old ++ spec.number_of number) }
{
    if number == 0 {
        return Ok(());
    }
    let number = number.to_string(alloc)?;
    lines.push(':')?;
    lines.push_str(number.as_str())
}

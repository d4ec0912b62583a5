//! The errors of a text, as JSON.

ghost use Rattle.std.specs.Prelude.{◌≡◌, ◌++◌, List, IfOk, OnOk, codes, option_map, string_bytes};
ghost use Rattle.std.specs.List.{flat_map};
ghost use Rattle.serde_json.specs.View.{view};
ghost use Rattle.diagnostics.specs.Diagnoses.{AreFindings, Finding};
ghost use Rattle.diagnostics.specs.Findings.{finding_of, findings_of};
ghost use Rattle.diagnostics.specs.Json as spec;

use crate::errors::{Told, errors_in};
use serde_json::{Value, json};
use std::alloc::{AllocError, Global};

/// What `diagnose` tells, as lines of JSON: of each error an object with `column`, `explanation` (the words), `file`, `kind`, `line` (0 as
/// `column` where the text is too long) and `text`, which is the line itself, or `null` where `diagnose` leaves it out. `Err`: no memory was
/// left.
pub fn diagnose_json(alloc: Global, file: &str, text: &[u8]) -> Result<Option<String>, AllocError>
    ensures { IfOk result (λ lines. (list : List Finding) × AreFindings text.now list
        × (option_map string_bytes lines ≡ spec.diagnosis_json file.now list)) }
{
    let list = errors_in(alloc, text)?;
    let lines = lines_of(alloc, file, list.as_slice())?;
    Ok(lines)
}

// What is told of errors, if there are any.
fn lines_of(alloc: Global, file: &str, list: &[Told]) -> Result<Option<String>, AllocError>
    ensures { IfOk result (λ lines. option_map string_bytes lines
        ≡ spec.diagnosis_json file.now (findings_of list.now)) }
{
    if list.is_empty() {
        return Ok(None);
    }
    let lines = all_lines(alloc, file, list)?;
    Ok(Some(lines))
}

fn all_lines(alloc: Global, file: &str, list: &[Told]) -> Result<String, AllocError>
    ensures { IfOk result (λ lines. string_bytes lines
        ≡ flat_map (spec.told_json file.now) (findings_of list.now)) }
{
    let mut lines = String::new(alloc);
    for told in list {
        push_told(alloc, &mut lines, file, told)?;
    }
    Ok(lines)
}

// What is told of an error, as a line.
fn push_told(alloc: Global, lines: &mut String, file: &str, told: &Told) -> Result<(), AllocError>
    ensures { OnOk result (string_bytes lines.new ≡ string_bytes lines.old
        ++ spec.told_json file.now (finding_of told.now)) }
{
    let value = told_value(alloc, file, told)?;
    let line = value.to_string(alloc)?;
    lines.push_str(line.as_str())?;
    lines.push('\n')
}

// What is told of an error, as a value.
fn told_value(alloc: Global, file: &str, told: &Told) -> Result<Value, AllocError>
    ensures { IfOk result (λ value. view value ≡ spec.told_data file.now (finding_of told.now)) }
{
    let words = told.fault.words.as_str();
    match told.text {
        Some(text) => json!(in alloc; {
            "column": told.fault.column,
            "explanation": words,
            "file": file,
            "kind": told.error.kind.name(),
            "line": told.error.line,
            "text": text
        }),
        None => json!(in alloc; {
            "column": told.fault.column,
            "explanation": words,
            "file": file,
            "kind": told.error.kind.name(),
            "line": told.error.line,
            "text": null
        }),
    }
}

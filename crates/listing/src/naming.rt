//! The labels of a text.

ghost use Rattle.std.specs.Prelude.{◌≡◌, ◌++◌, IfOk, OnOk, MatchResult, option_map, slice_get, string_bytes};
ghost use Rattle.serde_json.specs.View.{view};
ghost use Rattle.assembler.specs.Errors.{Reports};
ghost use Rattle.assembler.specs.Placed.{error_of};
ghost use Rattle.listing.specs.Labels as spec;
ghost use Rattle.listing.specs.Labels.{HasLabels};
ghost use Rattle.listing.specs.declared.naming.LabelForm.TheVariants as form;

use crate::MEMORY_SIZE;
use assembler::{AsmError, AsmErrorKind, assemble};
use image::{FIRST_ADDRESS, Image};
use rv32i::push_digits;
use serde_json::{Value, json};
use std::alloc::{AllocError, Global};

/// How labels are told.
#[derive(Clone, Copy, Debug, PartialEq, Eq)]
pub enum LabelForm {
    /// As a line of text: the address in eight hexadecimal digits, what stands there, two blanks, and the name.
    Text,
    /// As an object of JSON on a line, with `address`, `kind`, `line` (of code) and `name`.
    Json,
}

/// Assembles a text for a memory of 1 MiB, and tells its labels, a line for each, in the order of the text. What stands at a label's address
/// is code with its line, data, or nothing, where the image has ended. The errors are those of `assemble`.
pub fn labels(alloc: Global, text: &[u8], form: LabelForm) -> Result<String, AsmError>
    ensures { MatchResult result (λ lines. HasLabels form text.now (string_bytes lines))
        (λ error. Reports error (error_of text.now 1048576)) }
{
    match assemble(alloc, text, MEMORY_SIZE) {
        Ok(image) => match lines_for(alloc, &image, form) {
            Ok(lines) => Ok(lines),
            Err(_) => Err(AsmError {
                line: 0,
                kind: AsmErrorKind::NoMemory,
            }),
        },
        Err(error) => Err(error),
    }
}

// The lines of an image's labels.
fn lines_for(alloc: Global, image: &Image, form: LabelForm) -> Result<String, AllocError>
    ensures { IfOk result (λ lines. string_bytes lines
        ≡ spec.lines_for form image.now image.now.lines.labels) }
{
    let mut lines = String::new(alloc);
    for index in 0..image.lines.label_count() {
        push_at(alloc, &mut lines, image, index, form)?;
    }
    Ok(lines)
}

// The line of the label at a place, if there is one.
fn push_at(
    alloc: Global,
    lines: &mut String,
    image: &Image,
    index: usize,
    form: LabelForm,
) -> Result<(), AllocError>
    ensures { OnOk result (string_bytes lines.new ≡ string_bytes lines.old
        ++ spec.line_if form image.now (slice_get image.now.lines.labels index)) }
{
    match image.lines.label(index) {
        Some((name, address)) => match form {
            LabelForm::Text => push_text(alloc, lines, image, name, address),
            LabelForm::Json => push_json(alloc, lines, image, name, address),
        },
        None => Ok(()),
    }
}

// A label's line of text.
fn push_text(
    alloc: Global,
    lines: &mut String,
    image: &Image,
    name: &str,
    address: u32,
) -> Result<(), AllocError>
    ensures { OnOk result (string_bytes lines.new ≡ string_bytes lines.old
        ++ spec.line_of form.Text image.now (name.now, address)) }
{
    push_digits(lines, address)?;
    lines.push(' ')?;
    push_place(alloc, lines, place_of(image, address))?;
    lines.push_str("  ")?;
    lines.push_str(name)?;
    lines.push('\n')
}

// A label's object of JSON, on a line.
fn push_json(
    alloc: Global,
    lines: &mut String,
    image: &Image,
    name: &str,
    address: u32,
) -> Result<(), AllocError>
    ensures { OnOk result (string_bytes lines.new ≡ string_bytes lines.old
        ++ spec.line_of form.Json image.now (name.now, address)) }
{
    let value = label_value(alloc, place_of(image, address), name, address)?;
    let object = value.to_string(alloc)?;
    lines.push_str(object.as_str())?;
    lines.push('\n')
}

/// What stands at an address.
#[derive(Clone, Copy, PartialEq, Eq)]
pub(crate) enum Place {
    /// Code, of this line.
    Code(u32),
    /// Data.
    Data,
    /// Nothing: the image has ended.
    End,
}

// What stands at an address of an image, or after it.
fn place_of(image: &Image, address: u32) -> Place
    ensures { result ≡ spec.place_of image.now address }
{
    let end = u64::from(FIRST_ADDRESS) + image.bytes.as_slice().len() as u64;
    match image.lines.line_of(address) {
        Some(line) => Place::Code(line),
        None if u64::from(address) < end => Place::Data,
        None => Place::End,
    }
}

fn push_place(alloc: Global, lines: &mut String, place: Place) -> Result<(), AllocError>
    ensures { OnOk result (string_bytes lines.new ≡ string_bytes lines.old ++ spec.place_text place) }
{
    match place {
        Place::Code(line) => {
            let number = line.to_string(alloc)?;
            lines.push_str("code ")?;
            lines.push_str(number.as_str())
        }
        Place::Data => lines.push_str("data"),
        Place::End => lines.push_str("end"),
    }
}

fn label_value(alloc: Global, place: Place, name: &str, address: u32) -> Result<Value, AllocError>
    ensures { IfOk result (λ value. view value ≡ spec.label_data place name.now address) }
{
    match place {
        Place::Code(line) => json!(in alloc; {
            "address": address,
            "kind": "code",
            "line": line,
            "name": name
        }),
        Place::Data => json!(in alloc; {"address": address, "kind": "data", "name": name}),
        Place::End => json!(in alloc; {"address": address, "kind": "end", "name": name}),
    }
}

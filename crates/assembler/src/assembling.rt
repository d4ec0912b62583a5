//! A text to an image.
ghost use Rattle.std.specs.Prelude.{◌≡◌, ◌≤◌, length, Err, IfOk, IfSome, MatchResult};
ghost use Rattle.image.specs.Lines.{labels_of, RowsRise};
ghost use Rattle.assembler.specs.Errors.{Reports};
ghost use Rattle.assembler.specs.Placed.{error_of, Placed};
ghost use Rattle.assembler.specs.Places as spec;
ghost use Rattle.assembler.specs.Program.{whole_error};

use crate::error::AsmError;
use crate::fill::fill;
use crate::layout::{Layout, lay_out};
use crate::program::read_program;
use image::{Bytes, FIRST_ADDRESS, Image, LineTable};
use std::alloc::Global;

/// The image of a text, for a memory of `size` bytes from 0x00010000 on; or what is wrong with the text.
/// The image is no longer than that, and lies below 0xffffffff whatever the size. The passes go over all
/// lines, one after the other, and the first line in error of the first pass that has one is reported.
///
/// - First: `TooLarge` at line 0 for a text of more than 1,048,576 bytes; then `NotUtf8`.
/// - Second: `Syntax`, `UnknownInstruction`, `BadOperand`, or `OutOfRange` for a number that needs no
///   address.
/// - Third: `TwiceDefined`; then `OutOfRange` for an instruction, or the label `_start`, at an address that is
///   no multiple of 4; then `TooLarge` for a line that ends past the end of memory.
/// - Fourth: `Undefined`; then `OutOfRange` for a distance.
///
/// Instead of any answer but the two errors of the first pass it may report `NoMemory`, at line 0.
pub fn assemble(alloc: Global, text: &[u8], size: u32) -> Result<Image, AsmError>
    ensures answers { MatchResult result (λ image. Placed text.now size image)
        (λ error. Reports error (error_of text.now size)) }
    ensures fits { IfOk result (λ image. length image.bytes ≤ size) }

    // What is wrong with the text as a whole is found before any memory is taken, so that it is
    // reported whatever is left.
    ensures whole { IfSome (whole_error text.now) (λ error. result ≡ Err error) }
{
    let limit = FIRST_ADDRESS.saturating_add(size);
    let program = match read_program(alloc, text) {
        Ok(program) => program,
        Err(error) => return Err(error),
    };
    let layout = match lay_out(alloc, program.as_slice(), limit) {
        Ok(layout) => layout,
        Err(error) => return Err(error),
    };
    match fill(alloc, program.as_slice(), &layout.labels, limit) {
        Ok(bytes) => Ok(image_of(layout, bytes)),
        Err(error) => Err(error),
    }
}

// Where the program starts.
fn entry_of(layout: &Layout) -> u32
    ensures { result ≡ spec.entry_of (labels_of layout.now.labels.entries) layout.now.rows.items }
{
    if let Some(start) = layout.labels.get("_start") {
        return *start;
    }
    match layout.rows.as_slice() {
        [] => FIRST_ADDRESS,
        [row, ..] => row.1,
    }
}

fn image_of(layout: Layout, bytes: Vec<u8>) -> Image
    requires { RowsRise layout.rows.items layout.end }
    ensures bytes { result.bytes ≡ bytes.items }
    ensures entry { result.entry
        ≡ spec.entry_of (labels_of layout.labels.entries) layout.rows.items }
    ensures rows { result.lines.rows ≡ layout.rows.items }
    ensures labels { result.lines.labels ≡ labels_of layout.labels.entries }
    ensures end { result.lines.end ≡ layout.end }
{
    let entry = entry_of(&layout);
    let Layout { labels, rows, end } = layout;
    Image {
        bytes: Bytes::from_vec(bytes),
        entry,
        lines: LineTable::new(rows, labels, end),
    }
}

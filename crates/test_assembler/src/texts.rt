//! Whole texts and their images.
//!
//! - `assemble SIZE BYTES`: assembles a text for a memory of SIZE bytes, and keeps its image.
//! - `image entry`, `image bytes`: the image's; other arguments after `image` are asked of its lines, as
//!   `testing::ask_lines` says.

use assembler::{AsmError, AsmErrorKind, assemble};
use image::Image;
use std::alloc::Global;
use testing::{Fault, ask_lines, bytes_of, hexadecimal, parsed, shown};

/// What is reported where no memory is left.
const NO_MEMORY: AsmError = AsmError {
    line: 0,
    kind: AsmErrorKind::NoMemory,
};

/// Assembles a text, and keeps its image.
pub(crate) fn assembled(
    alloc: Global,
    image: &mut Option<Image>,
    size: &str,
    text: &str,
) -> Result<String, Fault> {
    *image = None;
    let text = bytes_of(alloc, text)?;
    match assemble(alloc, &text, parsed(size)?) {
        Ok(made) => {
            *image = Some(made);
            shown(alloc, "ok")
        }
        Err(NO_MEMORY) => Err(Fault::NoMemoryInCall),
        Err(error) => shown(alloc, error),
    }
}

/// What an image answers.
pub(crate) fn answer_image(
    alloc: Global,
    image: &Image,
    arguments: &[&str],
) -> Result<String, Fault> {
    match arguments {
        ["entry"] => shown(alloc, image.entry),
        ["bytes"] => hexadecimal(alloc, image.bytes.as_slice()),
        arguments => ask_lines(alloc, &image.lines, arguments),
    }
}

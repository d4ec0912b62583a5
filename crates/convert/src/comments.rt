//! Comments: `#` and `//` to the end of a line, `/*` to `*/`, also over lines.

use crate::fields::Quoting;
use std::alloc::{AllocError, Global};

// What a place of a line is.
#[derive(Clone, Copy, PartialEq, Eq)]
enum Place {
    // Code, in quotes or not.
    Code(Quoting),
    // Code, after a slash outside quotes.
    Slash,
    // A comment that the line ends.
    Line,
    // A comment that `*/` ends.
    Block,
    // The same, after a star.
    Star,
}

/// What of a line is code, a blank in place of each comment. `inside` says whether a comment of an earlier line continues, and then
/// whether this line leaves one open.
pub(crate) fn code_of(
    alloc: Global,
    line: &[u8],
    inside: &mut bool,
) -> Result<Vec<u8>, AllocError> {
    let mut code = Vec::new(alloc);
    let mut place = if *inside {
        Place::Block
    } else {
        Place::Code(Quoting::Outside)
    };
    for byte in line {
        let before = place;
        place = after(before, *byte);
        keep(&mut code, before, place, *byte)?;
    }
    *inside = place == Place::Block || place == Place::Star;
    Ok(code)
}

fn after(place: Place, byte: u8) -> Place {
    match place {
        Place::Code(Quoting::Outside) => in_code(byte),
        Place::Code(quoting) => Place::Code(quoting.after(byte)),
        Place::Slash if byte == b'/' => Place::Line,
        Place::Slash if byte == b'*' => Place::Block,
        Place::Slash => in_code(byte),
        Place::Line => Place::Line,
        Place::Block => in_block(byte),
        Place::Star if byte == b'/' => Place::Code(Quoting::Outside),
        Place::Star => in_block(byte),
    }
}

fn in_code(byte: u8) -> Place {
    match byte {
        b'#' => Place::Line,
        b'/' => Place::Slash,
        _ => Place::Code(Quoting::Outside.after(byte)),
    }
}

fn in_block(byte: u8) -> Place {
    if byte == b'*' {
        Place::Star
    } else {
        Place::Block
    }
}

// A byte of code is kept; the slash that turns out to begin a comment becomes a blank.
fn keep(code: &mut Vec<u8>, before: Place, place: Place, byte: u8) -> Result<(), AllocError> {
    match place {
        Place::Code(_) if before == Place::Star => Ok(()),
        Place::Code(_) | Place::Slash => push(code, byte),
        Place::Line | Place::Block if before == Place::Slash => {
            let _ = code.pop();
            push(code, b' ')
        }
        Place::Line | Place::Block | Place::Star => Ok(()),
    }
}

fn push(code: &mut Vec<u8>, byte: u8) -> Result<(), AllocError> {
    code.push(byte)?;
    Ok(())
}

//! What the players of a mirror and of a snapshot share.
#![tactic(auto)]

ghost use Rattle.std.specs.Prelude.{◌≡◌, None, IfOk, codes, string_bytes};

use facts::{BreakInfo, FrameInfo};
use std::alloc::Global;
use testing::{Fault, Line};

/// The answer that a breakpoint is, its number and its address, or `none`.
pub fn break_of(alloc: Global, found: Option<BreakInfo>) -> Result<String, Fault>
    ensures { found ≡ None → IfOk result (λ text. string_bytes text ≡ codes "none") }
{
    match found {
        Some(found) => {
            let mut line = Line::new(alloc);
            line.value(found.id)?;
            line.value(found.address)?;
            Ok(line.into_string())
        }
        None => none(alloc),
    }
}

/// The answer that a frame is, its number, its address and its name, or `none`.
pub fn frame_of(alloc: Global, found: Option<&FrameInfo>) -> Result<String, Fault> {
    match found {
        Some(found) => {
            let mut line = Line::new(alloc);
            line.value(found.id)?;
            line.value(found.address)?;
            line.word(found.name.as_str())?;
            Ok(line.into_string())
        }
        None => none(alloc),
    }
}

/// The answer that the value of a register or a byte is, or `none`.
pub fn value_of(alloc: Global, found: Option<u32>) -> Result<String, Fault> {
    let mut line = Line::new(alloc);
    line.optional(found)?;
    Ok(line.into_string())
}

fn none(alloc: Global) -> Result<String, Fault>
    ensures { IfOk result (λ text. string_bytes text ≡ codes "none") }
{
    Ok("none".to_string(alloc)?)
}

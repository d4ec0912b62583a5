//! The lines that are to be written, in one text.
ghost use Rattle.std.specs.Prelude.{◌≡◌, ◌∷◌, [], ◌++◌, IfSome, Some, string_bytes, true};
ghost use Rattle.scripts.specs.Copies.{path_of};
ghost use Rattle.scripts.specs.Joining.{slice_of};
ghost use Rattle.scripts.specs.Writing.{has_line, lent_step, text_of, watch_all};

use crate::writing::{StepRef, step_line, watch_line};
use byte_strings::Bytes;
use std::alloc::Global;

/// The line of the slice that waits, if one does, and that of an event. `None`: the event has none, or no memory was left.
pub(crate) fn due_lines(alloc: Global, waiting: Option<u32>, step: StepRef<'_>) -> Option<Bytes>
    ensures line { IfSome result (λ text. has_line (lent_step step.entry) ≡ true) }
    ensures text { IfSome result (λ text. text
        ≡ text_of (slice_of waiting ++ lent_step step.entry ∷ [])) }
{
    match step_line(alloc, step) {
        Ok(Some(line)) => after_slice(alloc, waiting, line),
        _ => None,
    }
}

/// The line of the slice that waits, if one does, and the last line of a script. `None`: no memory was left.
pub(crate) fn last_lines(alloc: Global, waiting: Option<u32>, connection: u32) -> Option<Bytes>
    ensures { IfSome result (λ text. text
        ≡ text_of (slice_of waiting) ++ (watch_all connection ++ 10 ∷ [])) }
{
    match watch_line(alloc, connection) {
        Ok(line) => after_slice(alloc, waiting, line),
        Err(_) => None,
    }
}

/// The path of the copy that has this number. `None`: no memory was left.
pub(crate) fn path_of(alloc: Global, number: u32) -> Option<String>
    ensures { IfSome result (λ path. string_bytes path ≡ path_of number) }
{
    let mut path = number.to_string(alloc).ok()?;
    path.push_str(".s").ok()?;
    Some(path)
}

// A line after that of the slice that waits, if one does.
fn after_slice(alloc: Global, waiting: Option<u32>, line: Bytes) -> Option<Bytes>
    ensures { IfSome result (λ text. text ≡ text_of (slice_of waiting) ++ line) }
{
    let Some(moves) = waiting else {
        return Some(line);
    };
    let mut text = slice_line(alloc, moves)?.into_vec();
    text.extend_from_slice(line.as_slice()).ok()?;
    Some(Bytes::from_vec(text))
}

/// The line of a slice. `None`: no memory was left.
pub(crate) fn slice_line(alloc: Global, moves: u32) -> Option<Bytes>
    ensures { IfSome result (λ line. line ≡ text_of (slice_of (Some moves))) }
{
    match step_line(alloc, StepRef::Slice(moves)) {
        Ok(line) => line,
        Err(_) => None,
    }
}

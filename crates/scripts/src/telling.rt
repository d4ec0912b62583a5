//! An event is told.
ghost use Rattle.std.specs.Prelude.{◌≡◌, ◌∷◌, [], ◌++◌, Some, None};
ghost use Rattle.scripts.specs.Copies.{path_of};
ghost use Rattle.scripts.specs.Joining.{slice_of};
ghost use Rattle.scripts.specs.Telling.{Finishes, Goes, Tells};
ghost use Rattle.scripts.specs.Private.Telling.{KeepsText, WritesLines};
ghost use Rattle.scripts.specs.Writing.{has_line, lent_step};
ghost use Rattle.scripts.specs.declared.step.Step.TheVariants.{Slice, Turn};

use crate::copies::Copies;
use crate::due::{due_lines, last_lines, path_of, slice_line};
use crate::progress::Progress;
use crate::writing::StepRef;
use blocking_io::write_whole;
use byte_strings::Bytes;
use std::alloc::Global;
use std::io::Write;

/// Tells an event. It answers how far the recording has come then, or `None` if it has ended.
pub(crate) fn told<W: Write>(
    alloc: Global,
    script: &mut W,
    progress: Progress,
    step: StepRef<'_>,
) -> Option<Progress>
    ensures { Tells (lent_step step.entry) (Some progress) result
        (W.contents script.old) (W.contents script.new) }
{
    match step {
        StepRef::Slice(moves) => told_slice(alloc, script, progress, moves),
        other => told_line(alloc, script, progress, other),
    }
}

/// Tells a turn with the file that the last copy is.
pub(crate) fn told_copy<W: Write>(
    alloc: Global,
    script: &mut W,
    progress: Progress,
) -> Option<Progress>
    ensures { Tells (Turn (Some (path_of progress.copies))) (Some progress) result
        (W.contents script.old) (W.contents script.new) }
{
    let path = path_of(alloc, progress.copies)?;
    told_line(alloc, script, progress, StepRef::Turn(Some(path.as_str())))
}

/// Keeps a text. It answers how far the recording has come then, or `None` if it has ended.
pub(crate) fn kept<C: Copies>(copies: &mut C, progress: Progress, text: &[u8]) -> Option<Progress>
    ensures { KeepsText text.now progress result (C.kept copies.old) (C.kept copies.new) }
{
    let number = progress.copies.checked_add(1)?;
    if copies.keep(number, text) {
        Some(Progress {
            copies: number,
            waiting: progress.waiting,
        })
    } else {
        None
    }
}

/// Writes the end of a script. It answers whether it was written whole.
pub(crate) fn finished<W: Write>(
    alloc: Global,
    script: &mut W,
    progress: Progress,
    connection: u32,
) -> bool
    ensures { Finishes connection result (Some progress)
        (W.contents script.old) (W.contents script.new) }
{
    match last_lines(alloc, progress.waiting, connection) {
        Some(text) => write_whole(script, text.as_slice()).is_ok(),
        None => false,
    }
}

// Tells a slice: it waits. The line of one that waited is written where 32 bits do not hold the moves of both.
fn told_slice<W: Write>(
    alloc: Global,
    script: &mut W,
    progress: Progress,
    moves: u32,
) -> Option<Progress>
    ensures { Tells (Slice moves) (Some progress) result
        (W.contents script.old) (W.contents script.new) }
{
    let Some(before) = progress.waiting else {
        return Some(waiting(progress, moves));
    };
    match before.checked_add(moves) {
        Some(sum) => Some(waiting(progress, sum)),
        None => write_lines(script, slice_line(alloc, before), waiting(progress, moves)),
    }
}

// The same progress, but that a slice of that many moves waits.
fn waiting(progress: Progress, moves: u32) -> Progress
    ensures { result ≡ record progress { waiting = Some moves } }
{
    Progress {
        copies: progress.copies,
        waiting: Some(moves),
    }
}

// Writes the line of an event, after that of a slice that waits.
fn told_line<W: Write>(
    alloc: Global,
    script: &mut W,
    progress: Progress,
    step: StepRef<'_>,
) -> Option<Progress>
    ensures { Goes (has_line (lent_step step.entry))
        (slice_of progress.waiting ++ lent_step step.entry ∷ [])
        (record progress { waiting = None }) result
        (W.contents script.old) (W.contents script.new) }
{
    let next = Progress {
        copies: progress.copies,
        waiting: None,
    };
    write_lines(script, due_lines(alloc, progress.waiting, step), next)
}

// Writes these lines. It answers how far the recording has come then, or `None` if it has ended.
fn write_lines<W: Write>(script: &mut W, lines: Option<Bytes>, next: Progress) -> Option<Progress>
    ensures { WritesLines lines next result (W.contents script.old) (W.contents script.new) }
{
    let text = lines?;
    write_whole(script, text.as_slice()).ok()?;
    Some(next)
}

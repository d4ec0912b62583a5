//! A recording: a script that may end anywhere.
ghost use Rattle.std.specs.Prelude.{◌≡◌, ◌==◌, length};
ghost use Rattle.scripts.specs.Lines as spec;
ghost use Rattle.scripts.specs.Recordings.{Holds, or_last, recorded_of, whole_lines};
ghost use Rattle.scripts.specs.Private.Steps.{following};

use crate::fault::ScriptFault;
use crate::line::{divided, end_of_line};
use crate::script::add_step;
use crate::step::Step;
use crate::watch::{Watch, watch_of};
use std::alloc::Global;

/// What a recording lists.
#[derive(Debug, Drop)]
pub struct Recorded {
    /// The events, in order.
    pub steps: Vec<Step>,
    /// What is watched, if the last line says that.
    pub watch: Option<Watch>,
}

/// Reads a recording: a script that may lack its last line, and be cut anywhere. What comes after its last line feed is left out.
///
/// - `Line`: the line of this number is the first that is not what it is to be.
/// - `NoMemory`: no memory was left.
pub fn read_recorded(alloc: Global, text: &[u8]) -> Result<Recorded, ScriptFault>
    ensures { Holds result (recorded_of text.now) }
{
    let mut steps = Vec::new(alloc);
    let mut number: u64 = 1;
    let mut rest = text;
    while let Some(end) = end_of_line(rest) {
        let (line, after) = divided(rest, end);
        match add_step(alloc, &mut steps, number, line) {
            Ok(()) => {
                number += 1;
                rest = after;
            }
            Err(ScriptFault::Line(_)) => return last_line(steps, number, line, has_no_line(after)),
            Err(fault) => return Err(fault),
        }
    }
    Ok(Recorded { steps, watch: None })
}

// A line that is no event: the last may say what is watched.
fn last_line(
    steps: Vec<Step>,
    number: u64,
    line: &[u8],
    is_last: bool,
) -> Result<Recorded, ScriptFault>
    ensures { Holds result (following steps.items
        (or_last number (spec.watch_of line.now) is_last)) }
{
    match watch_of(line) {
        Some(watch) if is_last => Ok(Recorded {
            steps,
            watch: Some(watch),
        }),
        _ => Err(ScriptFault::Line(number)),
    }
}

// Whether no line of a text is whole.
fn has_no_line(text: &[u8]) -> bool
    ensures { result ≡ (length (whole_lines text.now) == 0) }
{
    end_of_line(text).is_none()
}

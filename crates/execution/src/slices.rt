//! Instructions in a row, and the lines that they print.

ghost use Rattle.std.specs.Prelude.{◌≡◌, ◌+◌, ◌^◌, ◌≤◌, ◌++◌, None, IfOk, OnErr, string_bytes, string_len};
ghost use Rattle.std.specs.String.{string_capacity};
ghost use Rattle.execution.specs.Executions.{line_of};
ghost use Rattle.execution.specs.Private.Slices.{BreaksOff, IsSlice, end_by};

use crate::end::ExecutionEnd;
use itoa::Buffer;
use std::alloc::AllocError;
use stepping::{Outcome, RunEnd, Runner};

/// Instructions in a row.
#[derive(Clone, Copy)]
pub(crate) struct Slice {
    /// How many were made, where the execution has not ended.
    pub made: u32,
    /// How the execution ended; `None`: it continues.
    pub end: Option<ExecutionEnd>,
}

/// Runs `most` instructions, or fewer where the execution ends before, or where the lines exceed `room` bytes. They are put after those
/// that are there. `Err`: no memory was left for one more, as for a page of the machine's memory; the lines of those made are there.
pub(crate) fn run_slice(
    runner: &mut Runner,
    most: u32,
    room: u64,
    lines: &mut String,
) -> Result<Slice, AllocError>
    requires some { 1 ≤ most }
    requires few { runner.old.retired + most ≤ 2 ^ 62 }
    ensures ok { IfOk result (λ slice. IsSlice most slice.made slice.end runner.old runner.new
        (string_bytes lines.old) (string_bytes lines.new)) }
    ensures err { OnErr result (BreaksOff most runner.old runner.new
        (string_bytes lines.old) (string_bytes lines.new)) }
{
    let mut made = 0;
    while made < most {
        let part = run_part(runner, most - made, lines)?;
        match part.end {
            Some(end) => {
                return Ok(Slice {
                    made,
                    end: Some(end),
                });
            }
            None => made += part.made,
        }
        if lines.len() as u64 > room {
            return Ok(Slice { made, end: None });
        }
    }
    Ok(Slice { made, end: None })
}

// The longest line of a number, in bytes: `-2147483648` and a line feed.
const LONGEST_LINE: usize = 12;

// At most `most` instructions, up to the first with something to report. Room for its line is made first, so that nothing that
// was printed is lost.
fn run_part(runner: &mut Runner, most: u32, lines: &mut String) -> Result<Slice, AllocError>
    requires some { 1 ≤ most }
    requires few { runner.old.retired + most ≤ 2 ^ 62 }
    ensures ok { IfOk result (λ slice. IsSlice most slice.made slice.end runner.old runner.new
        (string_bytes lines.old) (string_bytes lines.new)) }
    ensures err { OnErr result (BreaksOff most runner.old runner.new
        (string_bytes lines.old) (string_bytes lines.new)) }
{
    lines.reserve(LONGEST_LINE)?;
    let ran = runner.run(most);
    match ran.ending {
        RunEnd::Spent => Ok(Slice {
            made: most,
            end: None,
        }),
        RunEnd::Ticked(tick) => {
            push_line(lines, tick.printed);
            Ok(slice_to(ran.went, tick.outcome))
        }
        RunEnd::NoMemory => Err(AllocError),
    }
}

// `went` instructions continued, and then one had this outcome.
fn slice_to(went: u32, outcome: Outcome) -> Slice
    requires { went + 1 ≤ 4294967295 }
    ensures end { result.end ≡ end_by outcome }
    ensures made { end_by outcome ≡ None → result.made ≡ went + 1 }
{
    match outcome {
        Outcome::Went => Slice {
            made: went + 1,
            end: None,
        },
        Outcome::Stopped(reason) => Slice {
            made: went,
            end: Some(ExecutionEnd::Stopped(reason)),
        },
        Outcome::Ended(code) => Slice {
            made: went,
            end: Some(ExecutionEnd::Ended(code)),
        },
    }
}

// The line of a number that was printed, if one was, after others. There is room for it.
fn push_line(lines: &mut String, printed: Option<i32>)
    requires { string_len lines.old + LONGEST_LINE ≤ string_capacity lines.old }
    ensures { string_bytes lines.new ≡ string_bytes lines.old ++ line_of printed }
{
    if let Some(number) = printed {
        let mut digits = Buffer::new();
        lines.push_str(digits.format(number)).unwrap();
        lines.push('\n').unwrap();
    }
}

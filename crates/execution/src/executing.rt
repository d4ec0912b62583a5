//! A machine that runs to its end.

ghost use Rattle.std.specs.Prelude.{◌≡◌, ◌+◌, ◌^◌, ◌<◌, ◌≤◌, IfErr, IfOk, Some, length, take};
ghost use Rattle.std.specs.Io.KnownBytes.{Appends};
ghost use Rattle.blocking_io.specs.Writing.{IsPartWritten};
ghost use Rattle.execution.specs.Executions.{Executes, IsGivenUp};
ghost use Rattle.execution.specs.Private.Slices.{GivesUp, Writes};

use crate::end::{ExecutionEnd, ExecutionFault};
use crate::slices::run_slice;
use blocking_io::write_whole;
use std::alloc::Global;
use std::io::Write;
use stepping::Runner;

/// After this many instructions, and at the end, what was printed meanwhile is written.
const SLICE: u64 = 100_000;

/// How much a program may do.
#[derive(Clone, Copy, Debug, PartialEq, Eq)]
pub struct Limits {
    /// How many instructions may run.
    pub instructions: u64,
    /// How many bytes may be printed.
    pub bytes: u64,
}

/// Lets a machine run until it ends or stops, for as many instructions as are allowed, and writes the numbers that it prints, in decimal
/// on lines. They are written after each 100,000 instructions, and at the end. Where they exceed the allowed bytes, it ends after the
/// instruction that printed too much, and as many bytes as are allowed are written. No more than 2^62 instructions will have retired.
///
/// - `Write`: the writer failed. It has all that was printed before the last 100,000 instructions or fewer, and of what these printed the
///   first bytes, not all.
/// - `NoMemory`: no memory was left for one more instruction, as for a page of the machine's memory. The writer has all that was printed.
pub fn execute<W: Write>(
    alloc: Global,
    runner: &mut Runner,
    limits: Limits,
    writer: &mut W,
) -> Result<ExecutionEnd, ExecutionFault>
    requires { runner.old.retired + limits.instructions ≤ 2 ^ 62 }
    ensures ok { IfOk result (λ end. Executes limits end runner.old runner.new
        (W.contents writer.old) (W.contents writer.new)) }
    ensures err { IfErr result (λ fault. IsGivenUp limits.instructions fault runner.old runner.new
        (W.contents writer.old) (W.contents writer.new)) }
{
    let mut left = limits.instructions;
    let mut room = limits.bytes;
    while left > 0 {
        let most = left.min(SLICE) as u32;
        let part = match write_slice(alloc, runner, most, room, writer) {
            Ok(part) => part,
            Err(fault) => return Err(fault),
        };
        match part.end {
            Some(end) => return Ok(end),
            None => {
                left -= u64::from(part.made);
                room -= part.bytes;
            }
        }
    }
    Ok(ExecutionEnd::Limit)
}

// Instructions in a row whose lines were written.
#[derive(Clone, Copy)]
struct Part {
    /// How many were made, where the execution has not ended.
    made: u32,
    /// How the execution ended; `None`: it continues.
    end: Option<ExecutionEnd>,
    /// How many bytes were written.
    bytes: u64,
}

// A slice of at most `most` instructions; what it printed is written, at most `room` bytes.
fn write_slice<W: Write>(
    alloc: Global,
    runner: &mut Runner,
    most: u32,
    room: u64,
    writer: &mut W,
) -> Result<Part, ExecutionFault>
    requires some { 1 ≤ most }
    requires few { runner.old.retired + most ≤ 2 ^ 62 }
    ensures ok { IfOk result (λ part. Writes most room part runner.old runner.new
        (W.contents writer.old) (W.contents writer.new)) }
    ensures err { IfErr result (λ fault. GivesUp most fault runner.old runner.new
        (W.contents writer.old) (W.contents writer.new)) }
{
    let mut lines = String::new(alloc);
    let answer = run_slice(runner, most, room, &mut lines);
    if lines.len() as u64 > room {
        return write_first(writer, lines.as_bytes(), room);
    }
    if write_whole(writer, lines.as_bytes()).is_err() {
        return Err(ExecutionFault::Write);
    }
    match answer {
        Ok(slice) => Ok(Part {
            made: slice.made,
            end: slice.end,
            bytes: lines.len() as u64,
        }),
        Err(_) => Err(ExecutionFault::NoMemory),
    }
}

// The first `room` bytes of lines that are longer.
fn write_first<W: Write>(writer: &mut W, lines: &[u8], room: u64) -> Result<Part, ExecutionFault>
    requires { room < length lines.now }
    ensures end { IfOk result (λ part. part.end ≡ Some ExecutionEnd.OutputLimit) }
    ensures ok { IfOk result (λ part. Appends
        (W.contents writer.old) (W.contents writer.new) (take room lines.now)) }
    ensures fault { IfErr result (λ fault. fault ≡ ExecutionFault.Write) }
    ensures err { IfErr result (λ fault. IsPartWritten
        (W.contents writer.old) (W.contents writer.new) lines.now) }
{
    if write_whole(writer, &lines[..room as usize]).is_err() {
        return Err(ExecutionFault::Write);
    }
    Ok(Part {
        made: 0,
        end: Some(ExecutionEnd::OutputLimit),
        bytes: room,
    })
}

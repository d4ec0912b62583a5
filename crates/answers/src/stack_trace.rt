//! `stackTrace`: the frames of the call stack.

ghost use Rattle.std.specs.Prelude.{◌≡◌, ◌+◌, ◌-◌, ◌<◌, ◌≤◌, IfOk, length, map, slice_index};
ghost use Rattle.std.specs.List.{range_with_len};
ghost use Rattle.answers.specs.Looking.{look_by};
ghost use Rattle.answers.specs.StackTrace as spec;
ghost use Rattle.answers.specs.Private.Steps.{frames_from};
ghost use Rattle.rv32i.specs.Texts.{address_text};

use crate::editor_lines::line_in_editor;
use crate::parts::{end_in, first_in};
use crate::shown::Look;
use crate::view::View;
use image::LineTable;
use protocol::{Entries, StackTraceArguments, Text};
use replies::{ResponseBody, Source, StackFrame, StackTrace};
use rv32i::push_digits;
use std::alloc::{AllocError, Global};
use stepping::Runner;
use variables::{Handles, Target};

/// What is answered, and the frames for which numbers have to be issued, which are those that are given. The first frame is at the
/// program counter, each further one at the address of a call that is kept, the newest first. They are given from `startFrame` on, at
/// most `levels` of them; all from there on where that is 0 or absent. The view's first line is 0 or 1.
///
/// There are no refusals. `Err`: no memory was left.
pub(crate) fn answer(
    alloc: Global,
    arguments: &StackTraceArguments,
    runner: &Runner,
    lines: &LineTable,
    handles: &Handles,
    view: &View,
) -> Result<Look, AllocError>
    requires base { view.now.line_base ≤ 1 }
    ensures { IfOk result (λ look. look_by look
        ≡ record {
          result = spec.stack_trace arguments.now runner.now lines.now handles.now
              view.now;
          targets = spec.frames_given arguments.now runner.now;
        }) }
{
    let total = runner.calls().kept() + 1;
    let first = first_in(arguments.start_frame, total);
    let end = end_in(first, arguments.levels, total);
    let targets = targets(alloc, first, end)?;
    let numbers = handles.to_come(&targets)?;
    let frames = frames(alloc, runner, lines, view, first, &numbers)?;
    Ok(Look {
        result: Ok(ResponseBody::StackTrace(StackTrace {
            stack_frames: Entries::from_vec(frames),
            total_frames: total as u32,
        })),
        targets,
    })
}

// The frames from an index up to another.
fn targets(alloc: Global, first: usize, end: usize) -> Result<Vec<Target>, AllocError>
    requires order { first ≤ end }
    requires few { end ≤ 257 }
    ensures { IfOk result (λ targets. targets.items
        ≡ map (λ index. Target.Frame index) (range_with_len first (end - first))) }
{
    let mut targets = Vec::with_capacity(alloc, end - first)?;
    for index in first..end {
        targets.push(Target::Frame(index as u32))?;
    }
    Ok(targets)
}

// The frames from an index on, with these numbers.
fn frames(
    alloc: Global,
    runner: &Runner,
    lines: &LineTable,
    view: &View,
    first: usize,
    numbers: &[u32],
) -> Result<Vec<StackFrame>, AllocError>
    requires base { view.now.line_base ≤ 1 }
    requires within { first + length numbers.now ≤ length (spec.addresses runner.now) }
    requires few { first + length numbers.now ≤ 257 }
    ensures { IfOk result (λ frames. frames.items
        ≡ frames_from lines.now view.now (spec.addresses runner.now) first numbers.now) }
{
    let mut frames = Vec::with_capacity(alloc, numbers.len())?;
    for offset in 0..numbers.len() {
        let address = address_of(runner, first + offset);
        frames.push(frame(alloc, lines, view, numbers[offset], address)?)?;
    }
    Ok(frames)
}

/// The address of the frame of an index, which is below the number of frames: that of the program counter for the first one, that of
/// the call for each further one (`StackFrame.instructionPointerReference`).
pub fn address_of(runner: &Runner, index: usize) -> u32
    requires { index < length (spec.addresses runner.now) }
    ensures { result ≡ slice_index (spec.addresses runner.now) index }
{
    if index == 0 {
        return runner.hart().pc;
    }
    match runner.calls().entry(index - 1) {
        Some(address) => address,
        None => unreachable!(),
    }
}

// The frame at an address, with this number.
fn frame(
    alloc: Global,
    lines: &LineTable,
    view: &View,
    id: u32,
    address: u32,
) -> Result<StackFrame, AllocError>
    requires base { view.now.line_base ≤ 1 }
    ensures { IfOk result (λ frame. frame ≡ spec.frame lines.now view.now id address) }
{
    let name = name_at(alloc, lines, address)?;
    match lines.line_of(address) {
        None => Ok(StackFrame {
            column: 0,
            id,
            instruction_pointer_reference: address,
            line: 0,
            name,
            source: None,
        }),
        Some(line) => Ok(StackFrame {
            column: view.column_base,
            id,
            instruction_pointer_reference: address,
            line: line_in_editor(view.line_base, line),
            name,
            source: Some(source_of(alloc, view.path.as_str())?),
        }),
    }
}

/// What the frame at an address is called: by its label, and how many bytes it is above that, or by the address itself where there is
/// no label (`StackFrame.name`). It fails where no memory is left.
pub fn name_at(alloc: Global, lines: &LineTable, address: u32) -> Result<Text, AllocError>
    ensures { IfOk result (λ name. name ≡ spec.name_at lines.now address) }
{
    match lines.label_at(address) {
        None => address_text(alloc, address),
        Some((label, distance)) => above_label(alloc, label, distance),
    }
}

fn above_label(alloc: Global, label: &str, distance: u32) -> Result<Text, AllocError>
    ensures { IfOk result (λ name. name ≡ spec.above_label label.now distance) }
{
    if distance == 0 {
        return Ok(Text::from_string(String::from_str(alloc, label)?));
    }
    Ok(Text::from_string(format!(in alloc; "{label}+{distance}")?))
}

// An address in eight digits.
fn address_text(alloc: Global, address: u32) -> Result<Text, AllocError>
    ensures { IfOk result (λ text. text ≡ address_text address) }
{
    let mut text = String::from_str(alloc, "0x")?;
    push_digits(&mut text, address)?;
    Ok(Text::from_string(text))
}

fn source_of(alloc: Global, path: &str) -> Result<Source, AllocError>
    ensures { IfOk result (λ source. source ≡ spec.source_of path.now) }
{
    Ok(Source {
        name: Text::from_string(String::from_str(alloc, file_name(path))?),
        path: Text::from_string(String::from_str(alloc, path)?),
    })
}

// What follows the last `/` of a path.
fn file_name(path: &str) -> &str
    ensures { result.now ≡ spec.file_name path.now }
{
    match path.rsplit_once('/') {
        None => path,
        Some((_, name)) => name,
    }
}

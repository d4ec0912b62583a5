//! `setBreakpoints`: the breakpoints at the lines of a source.

ghost use Rattle.std.specs.Prelude.{◌≡◌, ◌+◌, ◌<◌, ◌≤◌, ◌^◌, ◌++◌, ℕ, List, Option, false, IfOk, IsTrue, OnOk, OnErr, length, option_copied};
ghost use Rattle.std.specs.List.{list_any};
ghost use Rattle.answers.specs.Answers.{answer_by};
ghost use Rattle.answers.specs.Breakpoints.{entries_of, list_of};
ghost use Rattle.answers.specs.Conditions.{MayTakeMemory};
ghost use Rattle.answers.specs.SetBreakpoints as spec;
ghost use Rattle.answers.specs.Spaces.{said};
ghost use Rattle.answers.specs.Private.Steps.{list_in, source_place_by, source_place_in, Takes, conditions_in};

use crate::breaks::{BreakAnswer, MOST};
use crate::conditions::{Conditions, conditions_of};
use crate::draft::Draft;
use crate::editor_lines::{line_in_editor, line_in_image};
use crate::problem::Problem;
use crate::spaces::unless_empty;
use crate::view::View;
use breakpoints::LogText;
use image::LineTable;
use protocol::{Entries, Refusal, SetBreakpointsArguments, SourceBreakpoint, Text};
use replies::{ResponseBody, SetBreakpoints};
use std::alloc::{AllocError, Global};

/// The most bytes that a logpoint may write.
const MOST_BYTES: usize = 1024;

/// Where a breakpoint can be set.
#[derive(Drop)]
struct Place {
    /// The line, as the image counts them.
    line: u32,
    /// The address of its first instruction.
    address: u32,
    conditions: Conditions,
}

/// The answer, with this number for the first breakpoint that is set. More than 1,024 breakpoints are refused as too many, and so is
/// a logpoint that is to write more than 1,024 bytes; where the source is not the program's, no list is to be set. It fails where no
/// memory is left.
pub(crate) fn answer(
    alloc: Global,
    arguments: &SetBreakpointsArguments,
    lines: &LineTable,
    view: &View,
    next_id: u32,
) -> Result<BreakAnswer, AllocError>
    requires base { view.now.line_base ≤ 1 }
    requires next { next_id ≤ 2147483648 }
    ensures answer { IfOk result
        (λ answer. answer_by answer
        ≡ spec.set_breakpoints lines.now view.now next_id arguments.now) }
    ensures few { OnErr result (spec.is_too_much arguments.now.breakpoints ≡ false) }
{
    let asked = arguments.breakpoints.as_slice();
    if is_too_much(asked) {
        return Ok(BreakAnswer {
            result: Err(Refusal::TooMuch),
            list: None,
        });
    }
    let own = is_own(view.path.as_str(), &arguments.source.path);
    of_source(alloc, own, lines, view, next_id, asked)
}

// Whether too much is asked for.
fn is_too_much(asked: &[SourceBreakpoint]) -> bool
    ensures { result ≡ spec.is_too_much asked.now }
{
    asked.len() > MOST || has_long(asked)
}

// Whether a logpoint is to write more than may be.
fn has_long(asked: &[SourceBreakpoint]) -> bool
    ensures { result ≡ list_any (λ one. spec.is_long one.log_message) asked.now }
{
    asked
        .iter()
        .any(|breakpoint| is_long(&breakpoint.log_message))
}

fn is_long(log_message: &Option<Text>) -> bool
    ensures { result ≡ spec.is_long log_message.now }
{
    match log_message {
        None => false,
        Some(text) => text.as_str().len() > MOST_BYTES,
    }
}

// Whether a source is the program's.
fn is_own(path: &str, source: &Option<Text>) -> bool
    ensures { result ≡ spec.is_own path.now source.now }
{
    match source {
        None => false,
        Some(asked) => asked.as_str() == path,
    }
}

// What is answered for a source: its list where it is the program's, else that none of them can be set.
fn of_source(
    alloc: Global,
    own: bool,
    lines: &LineTable,
    view: &View,
    next_id: u32,
    asked: &[SourceBreakpoint],
) -> Result<BreakAnswer, AllocError>
    requires base { view.now.line_base ≤ 1 }
    requires next { next_id ≤ 2147483648 }
    requires few { length asked.now ≤ 1024 }
    ensures { IfOk result (λ answer. answer_by answer
        ≡ spec.of_source own lines.now view.now next_id asked.now) }
{
    let mut draft = Draft::new(alloc, next_id);
    let entries = entries_of(alloc, own, lines, view.line_base, asked, &mut draft)?;
    let body = SetBreakpoints {
        breakpoints: Entries::from_vec(entries),
    };
    let list = if own { Some(draft.list) } else { None };
    Ok(BreakAnswer {
        result: Ok(ResponseBody::SetBreakpoints(body)),
        list,
    })
}

// What is said of each breakpoint; those that can be set are added to the draft.
fn entries_of(
    alloc: Global,
    own: bool,
    lines: &LineTable,
    base: u32,
    asked: &[SourceBreakpoint],
    draft: &mut Draft,
) -> Result<Vec<replies::SourceBreakpoint>, AllocError>
    requires base { base ≤ 1 }
    requires room { draft.old.next_id + length asked.now < 2 ^ 32 }
    ensures entries { IfOk result
        (λ entries. entries.items
        ≡ entries_of (spec.judged own lines.now base)
        (spec.entry base) draft.old.next_id asked.now) }
    ensures list { OnOk result
        (list_in draft.new ≡ list_in draft.old
        ++ list_of (spec.judged own lines.now base) spec.wanted draft.old.next_id asked.now) }
{
    let mut entries = Vec::with_capacity(alloc, asked.len())?;
    for breakpoint in asked {
        entries.push(entry(alloc, own, lines, base, breakpoint, draft)?)?;
    }
    Ok(entries)
}

// What is said of a breakpoint, which is added to the draft where it can be set.
fn entry(
    alloc: Global,
    own: bool,
    lines: &LineTable,
    base: u32,
    asked: &SourceBreakpoint,
    draft: &mut Draft,
) -> Result<replies::SourceBreakpoint, AllocError>
    requires base { base ≤ 1 }
    requires room { draft.old.next_id + 1 < 2 ^ 32 }
    ensures entry { IfOk result
        (λ entry. entry ≡ spec.entry base draft.old.next_id asked.now
        (spec.judged own lines.now base asked.now)) }
    ensures takes { OnOk result
        (Takes spec.wanted (spec.judged own lines.now base asked.now) draft.old draft.new) }
{
    match judged(alloc, own, lines, base, asked)? {
        Ok(place) => set(alloc, draft, base, place, written(&asked.log_message)),
        Err(problem) => unset(alloc, asked.line, problem),
    }
}

fn set(
    alloc: Global,
    draft: &mut Draft,
    base: u32,
    place: Place,
    log: Option<&str>,
) -> Result<replies::SourceBreakpoint, AllocError>
    requires base { base ≤ 1 }
    requires room { draft.old.next_id + 1 < 2 ^ 32 }
    ensures entry { IfOk result
        (λ entry. entry ≡ spec.verified base draft.old.next_id
        (source_place_in place (option_copied log.entry))) }
    ensures takes { OnOk result
        (Takes spec.wanted (Ok (source_place_in place (option_copied log.entry)))
        draft.old draft.new) }
{
    let log = log_text(alloc, log)?;
    let id = draft.add(place.address, place.conditions, log)?;
    Ok(replies::SourceBreakpoint::Verified {
        id,
        instruction_reference: place.address,
        line: line_in_editor(base, place.line),
    })
}

fn unset(
    alloc: Global,
    line: u32,
    problem: Problem,
) -> Result<replies::SourceBreakpoint, AllocError>
    ensures { IfOk result (λ entry. entry ≡ spec.unverified line problem) }
{
    Ok(replies::SourceBreakpoint::Unverified {
        line,
        message: problem.message(alloc)?,
    })
}

// What a logpoint writes; `None` where it is absent or empty.
fn written(log_message: &Option<Text>) -> Option<&str>
    ensures { option_copied result ≡ spec.written log_message.now }
{
    match log_message {
        None => None,
        Some(text) => unless_empty(text.as_str()),
    }
}

// A copy of it.
fn log_text(alloc: Global, text: Option<&str>) -> Result<Option<LogText>, AllocError>
    ensures { IfOk result (λ log. log ≡ option_copied text.entry) }
{
    match text {
        None => Ok(None),
        Some(text) => Ok(Some(LogText::new(String::from_str(alloc, text)?))),
    }
}

// Whether a breakpoint can be set, and where.
fn judged(
    alloc: Global,
    own: bool,
    lines: &LineTable,
    base: u32,
    asked: &SourceBreakpoint,
) -> Result<Result<Place, Problem>, AllocError>
    requires { base ≤ 1 }
    ensures found { IfOk result
        (λ found. source_place_by found (spec.written asked.now.log_message)
        ≡ spec.judged own lines.now base asked.now) }
    ensures own { OnErr result (IsTrue own) }
    ensures short { OnErr result (MayTakeMemory (said asked.now.condition)) }
{
    if !own {
        return Ok(Err(Problem::UnknownSource));
    }
    match conditions_of(alloc, &asked.condition, &asked.hit_condition)? {
        Err(problem) => Ok(Err(problem)),
        Ok(conditions) => Ok(placed(conditions, lines.bind(line_in_image(base, asked.line)))),
    }
}

fn placed(conditions: Conditions, found: Option<(u32, u32)>) -> Result<Place, Problem>
    ensures { (log : Option (List ℕ)) → source_place_by result log
        ≡ spec.placed (Ok (conditions_in conditions)) found log }
{
    match found {
        None => Err(Problem::NoCode),
        Some((line, address)) => Ok(Place {
            line,
            address,
            conditions,
        }),
    }
}

//! `setFunctionBreakpoints`: the breakpoints at functions, which are labels.

ghost use Rattle.std.specs.Prelude.{◌≡◌, ◌+◌, ◌<◌, ◌≤◌, ◌^◌, ◌++◌, IfOk, OnOk, OnErr, length};
ghost use Rattle.answers.specs.Answers.{answer_by};
ghost use Rattle.answers.specs.Breakpoints.{entries_of, list_of};
ghost use Rattle.answers.specs.Conditions.{MayTakeMemory};
ghost use Rattle.answers.specs.SetFunctionBreakpoints as spec;
ghost use Rattle.answers.specs.SetInstructionBreakpoints.{entry as entry_for, wanted};
ghost use Rattle.answers.specs.Spaces.{said};
ghost use Rattle.answers.specs.Private.Steps.{instruction_place_by, list_in, Takes, conditions_in};

use crate::breaks::{BreakAnswer, MOST};
use crate::conditions::{Conditions, conditions_of};
use crate::draft::Draft;
use crate::problem::Problem;
use crate::set_instruction_breakpoints::{Place, is_instructions, set, unset};
use crate::spaces::trimmed;
use image::LineTable;
use protocol::{Entries, FunctionBreakpoint, Refusal, SetFunctionBreakpointsArguments};
use replies::{InstructionBreakpoint, ResponseBody, SetFunctionBreakpoints};
use std::alloc::{AllocError, Global};

/// The answer, with the labels of this table, a memory of `size` bytes and this number for the first breakpoint that is set. More than
/// 1,024 breakpoints are refused as too many. It fails where no memory is left.
pub(crate) fn answer(
    alloc: Global,
    arguments: &SetFunctionBreakpointsArguments,
    lines: &LineTable,
    size: u32,
    next_id: u32,
) -> Result<BreakAnswer, AllocError>
    requires { next_id ≤ 2147483648 }
    ensures answer { IfOk result
        (λ answer. answer_by answer
        ≡ spec.set_function_breakpoints lines.now size next_id arguments.now) }
    ensures few { OnErr result (length arguments.now.breakpoints ≤ 1024) }
{
    let asked = arguments.breakpoints.as_slice();
    if asked.len() > MOST {
        return Ok(BreakAnswer {
            result: Err(Refusal::TooMuch),
            list: None,
        });
    }
    let mut draft = Draft::new(alloc, next_id);
    let entries = entries_of(alloc, lines, size, asked, &mut draft)?;
    let body = SetFunctionBreakpoints {
        breakpoints: Entries::from_vec(entries),
    };
    Ok(BreakAnswer {
        result: Ok(ResponseBody::SetFunctionBreakpoints(body)),
        list: Some(draft.list),
    })
}

// What is said of each breakpoint; those that can be set are added to the draft.
fn entries_of(
    alloc: Global,
    lines: &LineTable,
    size: u32,
    asked: &[FunctionBreakpoint],
    draft: &mut Draft,
) -> Result<Vec<InstructionBreakpoint>, AllocError>
    requires { draft.old.next_id + length asked.now < 2 ^ 32 }
    ensures entries { IfOk result
        (λ entries. entries.items
        ≡ entries_of (spec.judged lines.now size) entry_for draft.old.next_id asked.now) }
    ensures list { OnOk result
        (list_in draft.new ≡ list_in draft.old
        ++ list_of (spec.judged lines.now size) wanted draft.old.next_id asked.now) }
{
    let mut entries = Vec::with_capacity(alloc, asked.len())?;
    for breakpoint in asked {
        entries.push(entry(alloc, lines, size, breakpoint, draft)?)?;
    }
    Ok(entries)
}

// What is said of a breakpoint, which is added to the draft where it can be set.
fn entry(
    alloc: Global,
    lines: &LineTable,
    size: u32,
    asked: &FunctionBreakpoint,
    draft: &mut Draft,
) -> Result<InstructionBreakpoint, AllocError>
    requires { draft.old.next_id + 1 < 2 ^ 32 }
    ensures entry { IfOk result
        (λ entry. entry
        ≡ entry_for draft.old.next_id asked.now (spec.judged lines.now size asked.now)) }
    ensures takes { OnOk result
        (Takes wanted (spec.judged lines.now size asked.now) draft.old draft.new) }
{
    match judged(alloc, lines, size, asked)? {
        Ok(place) => set(draft, place),
        Err(problem) => unset(alloc, problem),
    }
}

// Whether a breakpoint can be set, and where.
fn judged(
    alloc: Global,
    lines: &LineTable,
    size: u32,
    asked: &FunctionBreakpoint,
) -> Result<Result<Place, Problem>, AllocError>
    ensures found { IfOk result
        (λ found. instruction_place_by found ≡ spec.judged lines.now size asked.now) }
    ensures short { OnErr result (MayTakeMemory (said asked.now.condition)) }
{
    match conditions_of(alloc, &asked.condition, &asked.hit_condition)? {
        Err(problem) => Ok(Err(problem)),
        Ok(conditions) => Ok(placed(
            size,
            conditions,
            lines.label_address(trimmed(asked.name.as_str())),
        )),
    }
}

fn placed(size: u32, conditions: Conditions, found: Option<u32>) -> Result<Place, Problem>
    ensures { instruction_place_by result
        ≡ spec.placed size (Ok (conditions_in conditions)) found }
{
    match found {
        None => Err(Problem::UnknownFunction),
        Some(address) if is_instructions(size, address) => Ok(Place {
            address,
            conditions,
        }),
        Some(_) => Err(Problem::BadAddress),
    }
}

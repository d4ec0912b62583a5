//! `setInstructionBreakpoints`: the breakpoints at addresses.

ghost use Rattle.std.specs.Prelude.{◌≡◌, ◌+◌, ◌<◌, ◌≤◌, ◌^◌, ◌++◌, IfOk, OnOk, OnErr, length};
ghost use Rattle.answers.specs.Answers.{answer_by};
ghost use Rattle.answers.specs.Breakpoints.{entries_of, list_of};
ghost use Rattle.answers.specs.Conditions.{MayTakeMemory};
ghost use Rattle.answers.specs.SetInstructionBreakpoints as spec;
ghost use Rattle.answers.specs.Spaces.{said};
ghost use Rattle.answers.specs.Private.Steps.{instruction_place_by, instruction_place_in, list_in, Takes, conditions_in};

use crate::breaks::{BreakAnswer, MOST};
use crate::conditions::{Conditions, conditions_of};
use crate::draft::Draft;
use crate::problem::Problem;
use image::FIRST_ADDRESS;
use numerals::address_in;
use protocol::{Entries, InstructionBreakpoint, Refusal, SetInstructionBreakpointsArguments};
use replies::{ResponseBody, SetInstructionBreakpoints};
use std::alloc::{AllocError, Global};

/// Where a breakpoint can be set.
#[derive(Drop)]
pub(crate) struct Place {
    /// The address of the instruction.
    pub(crate) address: u32,
    pub(crate) conditions: Conditions,
}

/// The answer, with a memory of `size` bytes and this number for the first breakpoint that is set. More than 1,024 breakpoints are
/// refused as too many. It fails where no memory is left.
pub(crate) fn answer(
    alloc: Global,
    arguments: &SetInstructionBreakpointsArguments,
    size: u32,
    next_id: u32,
) -> Result<BreakAnswer, AllocError>
    requires { next_id ≤ 2147483648 }
    ensures answer { IfOk result
        (λ answer. answer_by answer ≡ spec.set_instruction_breakpoints size next_id arguments.now) }
    ensures few { OnErr result (length arguments.now.breakpoints ≤ 1024) }
{
    let asked = arguments.breakpoints.as_slice();
    if asked.len() > MOST {
        return Ok(BreakAnswer {
            result: Err(Refusal::TooMuch),
            list: None,
        });
    }
    let mut draft = Draft::new(alloc, next_id);
    let entries = entries_of(alloc, size, asked, &mut draft)?;
    let body = SetInstructionBreakpoints {
        breakpoints: Entries::from_vec(entries),
    };
    Ok(BreakAnswer {
        result: Ok(ResponseBody::SetInstructionBreakpoints(body)),
        list: Some(draft.list),
    })
}

// What is said of each breakpoint; those that can be set are added to the draft.
fn entries_of(
    alloc: Global,
    size: u32,
    asked: &[InstructionBreakpoint],
    draft: &mut Draft,
) -> Result<Vec<replies::InstructionBreakpoint>, AllocError>
    requires { draft.old.next_id + length asked.now < 2 ^ 32 }
    ensures entries { IfOk result
        (λ entries. entries.items
        ≡ entries_of (spec.judged size) spec.entry draft.old.next_id asked.now) }
    ensures list { OnOk result
        (list_in draft.new ≡ list_in draft.old
        ++ list_of (spec.judged size) spec.wanted draft.old.next_id asked.now) }
{
    let mut entries = Vec::with_capacity(alloc, asked.len())?;
    for breakpoint in asked {
        entries.push(entry(alloc, size, breakpoint, draft)?)?;
    }
    Ok(entries)
}

// What is said of a breakpoint, which is added to the draft where it can be set.
fn entry(
    alloc: Global,
    size: u32,
    asked: &InstructionBreakpoint,
    draft: &mut Draft,
) -> Result<replies::InstructionBreakpoint, AllocError>
    requires { draft.old.next_id + 1 < 2 ^ 32 }
    ensures entry { IfOk result
        (λ entry. entry ≡ spec.entry draft.old.next_id asked.now (spec.judged size asked.now)) }
    ensures takes { OnOk result
        (Takes spec.wanted (spec.judged size asked.now) draft.old draft.new) }
{
    match judged(alloc, size, asked)? {
        Ok(place) => set(draft, place),
        Err(problem) => unset(alloc, problem),
    }
}

/// It is set: it is added to the draft. What is said of it has its number. It fails where no memory is left.
pub(crate) fn set(
    draft: &mut Draft,
    place: Place,
) -> Result<replies::InstructionBreakpoint, AllocError>
    requires { draft.old.next_id + 1 < 2 ^ 32 }
    ensures entry { IfOk result
        (λ entry. entry ≡ spec.verified draft.old.next_id (instruction_place_in place)) }
    ensures takes { OnOk result
        (Takes spec.wanted (Ok (instruction_place_in place)) draft.old draft.new) }
{
    let id = draft.add(place.address, place.conditions, None)?;
    Ok(replies::InstructionBreakpoint::Verified {
        id,
        instruction_reference: place.address,
    })
}

/// It is not set, for this reason. It fails where no memory is left.
pub(crate) fn unset(
    alloc: Global,
    problem: Problem,
) -> Result<replies::InstructionBreakpoint, AllocError>
    ensures { IfOk result (λ entry. entry ≡ spec.unverified problem) }
{
    Ok(replies::InstructionBreakpoint::Unverified {
        message: problem.message(alloc)?,
    })
}

// Whether a breakpoint can be set, and where.
fn judged(
    alloc: Global,
    size: u32,
    asked: &InstructionBreakpoint,
) -> Result<Result<Place, Problem>, AllocError>
    ensures found { IfOk result (λ found. instruction_place_by found ≡ spec.judged size asked.now) }
    ensures short { OnErr result (MayTakeMemory (said asked.now.condition)) }
{
    match conditions_of(alloc, &asked.condition, &asked.hit_condition)? {
        Err(problem) => Ok(Err(problem)),
        Ok(conditions) => Ok(placed(conditions, instruction_at(size, asked))),
    }
}

fn placed(conditions: Conditions, found: Option<u32>) -> Result<Place, Problem>
    ensures { instruction_place_by result ≡ spec.placed (Ok (conditions_in conditions)) found }
{
    match found {
        None => Err(Problem::BadAddress),
        Some(address) => Ok(Place {
            address,
            conditions,
        }),
    }
}

// The address that is asked for, if an instruction can be there.
fn instruction_at(size: u32, asked: &InstructionBreakpoint) -> Option<u32>
    ensures { result ≡ spec.asked_address size asked.now }
{
    let address = address_in(asked.instruction_reference.as_str(), asked.offset)?;
    if is_instructions(size, address) {
        Some(address)
    } else {
        None
    }
}

/// Whether an instruction can be at an address.
pub(crate) fn is_instructions(size: u32, address: u32) -> bool
    ensures { result ≡ spec.is_instructions size address }
{
    address >= FIRST_ADDRESS && address - FIRST_ADDRESS < size && address % 4 == 0
}

//! Breakpoints, on a hart and its memory.
//!
//! - `source BREAKPOINT..`, `instructions BREAKPOINT..`, `functions BREAKPOINT..`: sets a list, as `lists` says. `once` before it: it is not
//!   made again where it found no memory, which is its answer then.
//! - `check`: looks at the breakpoints at pc: whether those of source lines stop, whether those of instructions do, whether those of
//!   functions do, and the ids of those that do. `look`: the same of those that stand there, for a program that goes back.
//! - `ids`: the ids of those that stopped at the last check, or stood at the last look; `logs`: the places of the logpoints that had
//!   something to say; `forget`: forgets both. `text PLACE`: the text of the logpoint there, or `none`.
//! - `has ADDRESS`: whether a breakpoint is there.
//! - `clear`, `reset`: takes all breakpoints away; takes their hits away.

use crate::lists::list_of;
use breakpoints::{Breaks, Hit};
use image::Memory;
use rv32i::Hart;
use std::alloc::Global;
use testing::{Fault, called, found, once, parsed, shown};

/// What breakpoints answer.
pub(crate) fn answer_breaks(
    alloc: Global,
    breaks: &mut Breaks,
    hart: &Hart,
    memory: &Memory,
    arguments: &[&str],
) -> Result<String, Fault> {
    match arguments {
        ["check"] => {
            let hit = breaks.check(hart.pc, hart, memory);
            hit_shown(alloc, breaks, hit)
        }
        ["look"] => {
            let hit = breaks.stand_at(hart.pc, hart, memory);
            hit_shown(alloc, breaks, hit)
        }
        ["ids"] => with_numbers(shown(alloc, "ids")?, alloc, breaks.ids()),
        ["logs"] => with_numbers(shown(alloc, "logs")?, alloc, breaks.logs()),
        ["text", place] => found(alloc, breaks.log_text(parsed(place)?)),
        ["has", address] => shown(alloc, breaks.has(parsed(address)?)),
        ["once", change @ ..] => once(alloc, changed(alloc, breaks, change)),
        change => changed(alloc, breaks, change),
    }
}

// What a command answers that changes breakpoints, with the word `ok`.
fn changed(alloc: Global, breaks: &mut Breaks, arguments: &[&str]) -> Result<String, Fault> {
    match arguments {
        ["source", list @ ..] => called(breaks.set_source(list_of(alloc, list)?))?,
        ["instructions", list @ ..] => called(breaks.set_instructions(list_of(alloc, list)?))?,
        ["functions", list @ ..] => called(breaks.set_functions(list_of(alloc, list)?))?,
        ["forget"] => breaks.forget_ids(),
        ["clear"] => breaks.clear(),
        ["reset"] => breaks.reset_hits(),
        _ => return Err(Fault::NoCommand),
    }
    shown(alloc, "ok")
}

// Which kinds of breakpoints a check or a look has found, and their ids.
fn hit_shown(alloc: Global, breaks: &Breaks, hit: Hit) -> Result<String, Fault> {
    let answer = format!(in alloc; "{} {} {}", hit.source, hit.instruction, hit.function)?;
    with_numbers(answer, alloc, breaks.ids())
}

// An answer with numbers after it.
fn with_numbers(answer: String, alloc: Global, numbers: &[u32]) -> Result<String, Fault> {
    let mut answer = answer;
    for number in numbers {
        answer.push(' ')?;
        answer.push_str(shown(alloc, *number)?.as_str())?;
    }
    Ok(answer)
}

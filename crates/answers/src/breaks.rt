//! What the requests that set breakpoints answer.

ghost use Rattle.std.specs.Prelude.{◌≡◌, ◌≤◌, false, IfOk, IfSome, IsTrue, OnErr};
ghost use Rattle.answers.specs.Answers.{answer_by, asks_too_much, breaks_answer, sets_breakpoints};
ghost use Rattle.breakpoints.specs.Stops.{CanBeSet};

use crate::view::View;
use crate::{set_breakpoints, set_function_breakpoints, set_instruction_breakpoints};
use breakpoints::BreakSpec;
use image::Image;
use protocol::{Command, Refusal};
use replies::ResponseBody;
use std::alloc::{AllocError, Global};
use stepping::Runner;

/// The most breakpoints that one request may ask for.
pub(crate) const MOST: usize = 1024;

/// The answer to a request that sets breakpoints, and what it sets.
#[derive(Drop)]
pub struct BreakAnswer {
    /// The body of the success, in which each breakpoint has an entry, or the refusal.
    pub result: Result<ResponseBody, Refusal>,
    /// The list that replaces the one that is set, of source lines, of functions or of instructions. `None`: none is replaced.
    pub list: Option<Vec<BreakSpec>>,
}

/// What a request that sets breakpoints answers, and the list that it sets: `setBreakpoints`, `setFunctionBreakpoints` or
/// `setInstructionBreakpoints` on this machine, into which the image was loaded. Nothing is changed.
///
/// The refusal is `TooMuch` where more than 1,024 breakpoints are asked for, or a logpoint that writes more than 1,024 bytes, and then no
/// list is to be set. Else each breakpoint has its entry, in order: those that can be set have numbers from `next_id` on, which is at most
/// 2,147,483,648, and the others say why they cannot be. Where the source is not that of the view, whose first line is 0 or 1, no list is
/// to be set. `Err`: no memory was left; a refusal takes none.
pub fn breaks_for(
    alloc: Global,
    command: &Command,
    runner: &Runner,
    image: &Image,
    view: &View,
    next_id: u32,
) -> Result<BreakAnswer, AllocError>
    requires command { IsTrue (sets_breakpoints command.now) }
    requires base { view.now.line_base ≤ 1 }
    requires next { next_id ≤ 2147483648 }
    ensures answer { IfOk result
        (λ answer. answer_by answer
        ≡ breaks_answer command.now image.now.lines runner.now.size view.now next_id) }
    ensures settable { IfOk result (λ answer. IfSome answer.list (λ list. CanBeSet list.items)) }
    ensures few { OnErr result (asks_too_much command.now ≡ false) }
{
    match command {
        Command::SetBreakpoints(arguments) => set_breakpoints::answer(
            alloc,
            arguments,
            &image.lines,
            view,
            next_id,
        ),
        Command::SetFunctionBreakpoints(arguments) => set_function_breakpoints::answer(
            alloc,
            arguments,
            &image.lines,
            runner.size(),
            next_id,
        ),
        Command::SetInstructionBreakpoints(arguments) => {
            set_instruction_breakpoints::answer(alloc, arguments, runner.size(), next_id)
        }
        _ => unreachable!(),
    }
}

//! `setBreakpoints`, `setFunctionBreakpoints` and `setInstructionBreakpoints`: the breakpoints of source lines, of
//! functions, or of instructions, are now these.
ghost use Rattle.std.specs.Prelude.{◌≡◌, ◌+◌, ◌<◌, nat_lt, IfOk, IfSome, IsTrue, map, length, option_map};
ghost use Rattle.answers.specs.Answers.{sets_breakpoints};
ghost use Rattle.breakpoints.specs.Stops.{CanBeSet, wanted_by};
ghost use Rattle.handlers.specs.Given.{Given as AGiven};
ghost use Rattle.handlers.specs.Changes.{answering_as};
ghost use Rattle.handlers.specs.Breaks as spec;
ghost use Rattle.handlers.specs.SetBreakpoints as set_breakpoints;

use crate::answer::{Answer, agreeing, changing, refusing};
use crate::change::Change;
use crate::demand::Demand;
use crate::lent::Lent;
use crate::numbered::Numbered;
use crate::phase::Phases;
use crate::terms::Terms;
use crate::view::view_of;
use answers::{BreakAnswer, breaks_for};
use breakpoints::BreakSpec;
use debuggee::Program;
use protocol::{Command, Refusal};
use replies::ResponseBody;
use std::alloc::{AllocError, Global};

/// In which phases it is taken, and what it asks of the program.
pub(crate) fn demand() -> Demand
    ensures { result ≡ set_breakpoints.demand }
{
    Demand::program().taken_in(Phases::Debugging)
}

/// The answer, by the program. `Err`: no memory was left.
pub(crate) fn success(alloc: Global, lent: &Lent, command: &Command) -> Result<Answer, AllocError>
    requires sets { IsTrue (sets_breakpoints command.now) }
    ensures { IfOk result (λ a. answering_as lent.now.given.debuggee a
        ≡ spec.success lent.now.given lent.now.terms command.now) }
{
    match lent.program {
        None => Ok(agreeing(lent.terms, ResponseBody::Empty)),
        Some(program) => success_on(alloc, lent, program, command),
    }
}

// The answer, where there is a program.
fn success_on(
    alloc: Global,
    lent: &Lent,
    program: &Program,
    command: &Command,
) -> Result<Answer, AllocError>
    requires sets { IsTrue (sets_breakpoints command.now) }
    ensures { IfOk result (λ a. answering_as lent.now.given.debuggee a
        ≡ spec.success_on (Some program.now) lent.now.given lent.now.terms command.now) }
{
    let view = view_of(alloc, lent.terms, program)?;
    let answer = breaks_for(
        alloc,
        command,
        program.machine(),
        program.image(),
        &view,
        lent.last_break + 1,
    )?;
    let BreakAnswer { result, list } = answer;
    match result {
        Ok(body) => Ok(sets(lent, command, body, list)),
        Err(refusal) => Ok(refusing(lent.terms, refusal, None)),
    }
}

// A list is replaced, unless the numbers are used up; or none is.
fn sets(lent: &Lent, command: &Command, body: ResponseBody, list: Option<Vec<BreakSpec>>) -> Answer
    requires sets { IsTrue (sets_breakpoints command.now) }
    requires can { IfSome list (λ list. CanBeSet list.items) }
    ensures { answering_as lent.now.given.debuggee result
        ≡ spec.sets lent.now.given lent.now.terms command.now body
        (option_map (λ list. map wanted_by list.items) list) }
{
    match list {
        None => agreeing(lent.terms, body),
        Some(list) => sets_list(lent, command, body, list),
    }
}

// A list is replaced, unless the numbers are used up.
fn sets_list(lent: &Lent, command: &Command, body: ResponseBody, list: Vec<BreakSpec>) -> Answer
    requires sets { IsTrue (sets_breakpoints command.now) }
    requires can { CanBeSet list.items }
    ensures { answering_as lent.now.given.debuggee result
        ≡ spec.sets lent.now.given lent.now.terms command.now body
        (Some (map wanted_by list.items)) }
{
    let last = lent.last_break + list.len() as u32;
    if last > lent.last_ref {
        return refusing(lent.terms, Refusal::ReferencesExhausted, None);
    }
    replaces(lent.terms, command, body, Numbered::new(list, last))
}

// The list of this request's kind is replaced.
fn replaces(terms: Terms, command: &Command, body: ResponseBody, breaks: Numbered) -> Answer
    requires sets { IsTrue (sets_breakpoints command.now) }
    ensures { (given : AGiven)
        → answering_as given.debuggee result ≡ spec.replaces given terms command.now body breaks }
{
    match command {
        Command::SetBreakpoints(_) => changing(Change::SetSource(breaks), terms, body),
        Command::SetFunctionBreakpoints(_) => changing(Change::SetFunctions(breaks), terms, body),
        Command::SetInstructionBreakpoints(_) => {
            changing(Change::SetInstructions(breaks), terms, body)
        }
        _ => unreachable!(),
    }
}

//! `stackTrace`, `scopes`, `variables`, `evaluate`, `disassemble` and `readMemory`: the editor looks into the program that is debugged.
ghost use Rattle.std.specs.Prelude.{◌≡◌, IfOk, IsTrue};
ghost use Rattle.answers.specs.Looking.{looks_in};
ghost use Rattle.handlers.specs.Changes.{answering_as};
ghost use Rattle.handlers.specs.Looking as spec;

use crate::answer::{Answer, agreeing, changing, refusing};
use crate::change::Change;
use crate::demand::Demand;
use crate::lent::Lent;
use crate::phase::Phases;
use crate::view::view_of;
use answers::{Look, look};
use debuggee::Program;
use protocol::{Command, Refusal};
use replies::ResponseBody;
use std::alloc::{AllocError, Global};
use variables::Target;

/// In which phases it is taken, and what it asks of the program.
pub(crate) fn demand() -> Demand
    ensures { result ≡ spec.demand }
{
    Demand::stopped().taken_in(Phases::Active)
}

/// What `stackTrace` asks, which names a thread.
pub(crate) fn demand_on(thread: i32) -> Demand
    ensures { result ≡ spec.demand_on thread }
{
    Demand::still(thread).taken_in(Phases::Active)
}

/// The answer, by the program. `Err`: no memory was left.
pub(crate) fn success(alloc: Global, lent: &Lent, command: &Command) -> Result<Answer, AllocError>
    requires { IsTrue (looks_in command.now) }
    ensures { IfOk result (λ a. answering_as lent.now.given.debuggee a
        ≡ spec.looks lent.now.given lent.now.terms command.now) }
{
    match lent.program {
        None => Ok(agreeing(lent.terms, ResponseBody::Empty)),
        Some(program) => success_on(alloc, lent, program, command),
    }
}

// The answer, where there is a program.
fn success_on(
    alloc: Global,
    lent: &Lent,
    program: &Program,
    command: &Command,
) -> Result<Answer, AllocError>
    requires { IsTrue (looks_in command.now) }
    ensures { IfOk result (λ a. answering_as lent.now.given.debuggee a
        ≡ spec.looks_on (Some program.now) lent.now.given lent.now.terms command.now) }
{
    let view = view_of(alloc, lent.terms, program)?;
    let Look { result, targets } = look(
        alloc,
        command,
        program.machine(),
        program.image(),
        lent.handles,
        &view,
    )?;
    match result {
        Ok(body) => Ok(shows(lent, body, targets)),
        Err(refusal) => Ok(refusing(lent.terms, refusal, None)),
    }
}

// Something is shown, unless the numbers for it are used up.
fn shows(lent: &Lent, body: ResponseBody, targets: Vec<Target>) -> Answer
    ensures { answering_as lent.now.given.debuggee result
        ≡ spec.shows lent.now.given lent.now.terms body targets.items }
{
    if lent.handles.has_room(&targets) {
        changing(Change::Issue(targets), lent.terms, body)
    } else {
        refusing(lent.terms, Refusal::ReferencesExhausted, None)
    }
}

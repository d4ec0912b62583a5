//! Why a request is refused, and what it is answered else.
ghost use Rattle.std.specs.Prelude.{◌≡◌, ◌++◌, IfOk, None, option_map};
ghost use Rattle.handlers.specs.Demands.{run_of};
ghost use Rattle.handlers.specs.Changes.{answering_as};
ghost use Rattle.handlers.specs.Refusals as spec;

use crate::answer::{Answer, refusing};
use crate::demand::Demand;
use crate::lent::Lent;
use crate::phase::Phase;
use crate::requests::{demand_of, success_of};
use debuggee::Run;
use protocol::{Command, Refusal};
use queues::{Ask, Fate, Pending};
use replies::{Outcome, Response};
use std::alloc::{AllocError, Global};

/// What a request that waits is answered, by what is lent to the answer. It fails where no memory is left.
pub fn answer_to(alloc: Global, lent: &Lent, pending: &Pending) -> Result<Answer, AllocError>
    ensures { IfOk result (λ a. answering_as lent.now.given.debuggee a
        ≡ spec.answer_of lent.now pending.now) }
{
    match refusal_of(lent.run(), lent.terms().phase, pending) {
        Some(refusal) => Ok(refusing(lent.terms(), refusal, None)),
        None => taken(alloc, lent, &pending.ask),
    }
}

/// The first reason for a refusal that applies, where the program runs so and the connection has come so far (`ErrorResponse`).
pub fn refusal_of(run: Option<Run>, phase: Phase, pending: &Pending) -> Option<Refusal>
    ensures { result ≡ spec.first_refusal (spec.refusals run phase pending.now) }
{
    match pending.fate {
        Fate::Repeated => Some(Refusal::RepeatedSequence),
        Fate::Cancelled => Some(Refusal::Cancelled),
        Fate::Waits => refusal_by_itself(run, phase, &pending.ask),
        Fate::NamesNone => match refusal_by_itself(run, phase, &pending.ask) {
            Some(refusal) => Some(refusal),
            None => Some(Refusal::RequestGone),
        },
    }
}

// Those that the request gives, or the program.
fn refusal_by_itself(run: Option<Run>, phase: Phase, ask: &Ask) -> Option<Refusal>
    ensures { result ≡ spec.first_refusal
        (spec.as_it_stands phase ask.now ++ spec.unmet run (spec.demand_by ask.now)) }
{
    match refusal_as_it_stands(phase, ask) {
        Some(refusal) => Some(refusal),
        None => match ask {
            Ask::Request(request) => refusal_unmet(run, demand_of(&request.command)),
            Ask::Bad { .. } => refusal_unmet(run, Demand::nothing()),
        },
    }
}

// Those that the request gives.
fn refusal_as_it_stands(phase: Phase, ask: &Ask) -> Option<Refusal>
    ensures { result ≡ spec.first_refusal (spec.as_it_stands phase ask.now) }
{
    match ask {
        Ask::Request(request) => {
            if demand_of(&request.command).phases.has(phase) {
                None
            } else {
                Some(Refusal::WrongPhase)
            }
        }
        Ask::Bad { refusal, .. } => Some(*refusal),
    }
}

// Those that the program gives.
fn refusal_unmet(run: Option<Run>, demand: Demand) -> Option<Refusal>
    ensures { result ≡ spec.first_refusal (spec.unmet run demand) }
{
    if demand.loaded && run.is_none() {
        return Some(Refusal::NoMachine);
    }
    if demand.alive && matches!(run, Some(Run::Ended(_))) {
        return Some(Refusal::Ended);
    }
    if let Some(number) = demand.thread {
        if number != 1 {
            return Some(Refusal::NoThread);
        }
    }
    if demand.still && matches!(run, Some(Run::Running)) {
        return Some(Refusal::NotStopped);
    }
    None
}

// What is answered to one that is not refused.
fn taken(alloc: Global, lent: &Lent, ask: &Ask) -> Result<Answer, AllocError>
    ensures { IfOk result (λ a. answering_as lent.now.given.debuggee a
        ≡ spec.answer_by lent.now None ask.now) }
{
    match ask {
        Ask::Request(request) => success_of(alloc, lent, &request.command),
        Ask::Bad { refusal, .. } => Ok(refusing(lent.terms(), *refusal, None)),
    }
}

/// The path of the file that the answer to a request wants, if it wants one.
#[tactic(auto, using(crate::proofs::Reasons::names_no_file))]
pub fn wanted_by<'p>(run: Option<Run>, phase: Phase, pending: &'p Pending) -> Option<&'p str>
    ensures { option_map (λ path. path.now) result
        ≡ spec.path_in (spec.first_refusal (spec.refusals run phase pending.now)) pending.now.ask }
{
    match path_of(&pending.ask) {
        Some(path) => match refusal_of(run, phase, pending) {
            Some(_) => None,
            None => Some(path),
        },
        None => None,
    }
}

// The path of the file that a request names, if it names one.
fn path_of<'p>(ask: &'p Ask) -> Option<&'p str>
    ensures { option_map (λ path. path.now) result ≡ spec.path_in None ask.now }
{
    match ask {
        Ask::Request(request) => match &request.command {
            Command::Launch(arguments) => Some(arguments.program.as_str()),
            _ => None,
        },
        Ask::Bad { .. } => None,
    }
}

/// The response that says what became of a request (`Response`). It fails where no memory is left.
pub fn response_to(alloc: Global, ask: &Ask, outcome: Outcome) -> Result<Response, AllocError>
    ensures { IfOk result (λ r. r ≡ spec.response_to ask.now outcome) }
{
    Ok(Response {
        request_seq: ask.number(),
        command: ask.copy_name(alloc)?,
        outcome,
    })
}

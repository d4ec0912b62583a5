//! `configurationDone`: the editor has said all.
ghost use Rattle.std.specs.Prelude.{◌≡◌, IfOk};
ghost use Rattle.handlers.specs.Given.{Given as AGiven};
ghost use Rattle.handlers.specs.Demands.{run_of};
ghost use Rattle.handlers.specs.Changes.{answering_as, events_of};
ghost use Rattle.handlers.specs.ConfigurationDone as spec;

use crate::answer::{Answer, changing_program};
use crate::change::{Change, ProgramChange};
use crate::demand::Demand;
use crate::lent::Lent;
use crate::phase::{Phase, Phases};
use crate::run::run_of;
use crate::telling::stop_event;
use crate::terms::Terms;
use debuggee::Run;
use replies::{Event, Outcome, ResponseBody};
use std::alloc::{AllocError, Global};

/// In which phases it is taken, and what it asks of the program.
pub(crate) fn demand() -> Demand
    ensures { result ≡ spec.demand }
{
    Demand::alive().taken_in(Phases::Configuring)
}

/// The answer: a program that was launched runs; of one that was joined, the editor is told how it runs. `Err`: no memory was left.
pub(crate) fn success(alloc: Global, lent: &Lent) -> Result<Answer, AllocError>
    ensures { IfOk result (λ a. answering_as lent.now.given.debuggee a
        ≡ spec.success lent.now.given lent.now.terms) }
{
    let active = lent.terms.in_phase(Phase::Active);
    if lent.terms.launched {
        return Ok(changing_program(ProgramChange::Begin, active, ResponseBody::Empty));
    }
    let event = run_event(alloc, run_of(lent.program))?;
    Ok(joins(active, event))
}

// The program was joined.
fn joins(terms: Terms, event: Option<Event>) -> Answer
    ensures { (given : AGiven) → events_of event ≡ spec.run_events (run_of given.debuggee.program)
        → answering_as given.debuggee result ≡ spec.joins given terms }
{
    Answer {
        change: Change::Nothing,
        terms,
        outcome: Outcome::Done(ResponseBody::Empty),
        event,
        closes: false,
    }
}

// What is told of a program that was joined.
fn run_event(alloc: Global, run: Option<Run>) -> Result<Option<Event>, AllocError>
    ensures { IfOk result (λ event. events_of event ≡ spec.run_events run) }
{
    match run {
        None | Some(Run::Ended(_)) => Ok(None),
        Some(Run::Running) => Ok(Some(Event::Continued)),
        Some(Run::Stopped(why)) => Ok(Some(stop_event(alloc, why, &[])?)),
    }
}

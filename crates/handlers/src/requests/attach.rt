//! `attach`: the editor joins the program that is debugged.
ghost use Rattle.std.specs.Prelude.{◌≡◌};
ghost use Rattle.handlers.specs.Given.{Given as AGiven};
ghost use Rattle.handlers.specs.Changes.{answering_as};
ghost use Rattle.handlers.specs.Attach as spec;

use crate::answer::Answer;
use crate::change::Change;
use crate::demand::Demand;
use crate::phase::{Phase, Phases};
use crate::terms::Terms;
use replies::{Event, Outcome, ResponseBody};

/// In which phases it is taken, and what it asks of the program.
pub(crate) fn demand() -> Demand
    ensures { result ≡ spec.demand }
{
    Demand::alive().taken_in(Phases::Initialized)
}

/// The answer, and what it changes.
pub(crate) fn success(terms: Terms) -> Answer
    ensures { (given : AGiven) → answering_as given.debuggee result ≡ spec.success given terms }
{
    Answer {
        change: Change::Nothing,
        terms: Terms {
            phase: Phase::Configuring,
            launched: false,
            ..terms
        },
        outcome: Outcome::Done(ResponseBody::Empty),
        event: Some(Event::Initialized),
        closes: false,
    }
}

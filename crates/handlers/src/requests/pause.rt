//! `pause`: a program that runs is to stand still before its next move.
ghost use Rattle.std.specs.Prelude.{◌≡◌};
ghost use Rattle.handlers.specs.Given.{Given as AGiven};
ghost use Rattle.handlers.specs.Changes.{answering_as};
ghost use Rattle.handlers.specs.Pause as spec;

use crate::answer::{Answer, changing_program};
use crate::change::ProgramChange;
use crate::demand::Demand;
use crate::phase::Phases;
use crate::terms::Terms;
use debuggee::Mark;
use replies::ResponseBody;

/// In which phases it is taken, and what it asks of the program.
pub(crate) fn demand(thread: i32) -> Demand
    ensures { result ≡ spec.demand thread }
{
    Demand::thread(thread).taken_in(Phases::Active)
}

/// The answer, and what it changes.
pub(crate) fn success(terms: Terms) -> Answer
    ensures { (given : AGiven) → answering_as given.debuggee result ≡ spec.success given terms }
{
    changing_program(ProgramChange::Mark(Mark::Pause), terms, ResponseBody::Empty)
}

//! `restart`: the program is loaded anew, and runs.
ghost use Rattle.std.specs.Prelude.{◌≡◌};
ghost use Rattle.handlers.specs.Given.{Given as AGiven};
ghost use Rattle.handlers.specs.Changes.{answering_as};
ghost use Rattle.handlers.specs.Restart as spec;

use crate::answer::{Answer, changing_program};
use crate::change::ProgramChange;
use crate::demand::Demand;
use crate::phase::Phases;
use crate::terms::Terms;
use replies::ResponseBody;

/// In which phases it is taken, and what it asks of the program.
pub(crate) fn demand() -> Demand
    ensures { result ≡ spec.demand }
{
    Demand::alive().taken_in(Phases::Active)
}

/// The answer, and what it changes.
pub(crate) fn success(terms: Terms) -> Answer
    ensures { (given : AGiven) → answering_as given.debuggee result ≡ spec.success given terms }
{
    changing_program(ProgramChange::Restart, terms, ResponseBody::Empty)
}

//! `cancel`: a request is not to be answered as it stands. It acts when it comes; this is its answer.
ghost use Rattle.std.specs.Prelude.{◌≡◌};
ghost use Rattle.handlers.specs.Given.{Given as AGiven};
ghost use Rattle.handlers.specs.Changes.{answering_as};
ghost use Rattle.handlers.specs.Cancel as spec;

use crate::answer::{Answer, agreeing};
use crate::demand::Demand;
use crate::terms::Terms;
use replies::ResponseBody;

/// In which phases it is taken, and what it asks of the program.
pub(crate) fn demand() -> Demand
    ensures { result ≡ spec.demand }
{
    Demand::nothing()
}

/// The answer, and what it changes.
pub(crate) fn success(terms: Terms) -> Answer
    ensures { (given : AGiven) → answering_as given.debuggee result ≡ spec.success given terms }
{
    agreeing(terms, ResponseBody::Empty)
}

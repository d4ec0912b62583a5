//! `initialize`: taken until one was answered with success, and not again.
ghost use Rattle.std.specs.Prelude.{◌≡◌};
ghost use Rattle.handlers.specs.Given.{Given as AGiven};
ghost use Rattle.handlers.specs.Changes.{answering_as};
ghost use Rattle.handlers.specs.Initialize as spec;

use crate::answer::{Answer, agreeing};
use crate::demand::Demand;
use crate::phase::{Phase, Phases};
use crate::terms::Terms;
use protocol::initialize::InitializeArguments;
use replies::ResponseBody;

/// In which phases it is taken, and what it asks of the program.
pub(crate) fn demand() -> Demand
    ensures { result ≡ spec.demand }
{
    Demand::nothing().taken_in(Phases::Fresh)
}

/// The answer, and what it changes.
pub(crate) fn success(terms: Terms, arguments: &InitializeArguments) -> Answer
    ensures { (given : AGiven)
        → answering_as given.debuggee result ≡ spec.success given terms arguments.now }
{
    let agreed = Terms {
        phase: Phase::Initialized,
        lines_start_at1: arguments.lines_start_at1,
        columns_start_at1: arguments.columns_start_at1,
        ..terms
    };
    agreeing(agreed, ResponseBody::Initialize)
}

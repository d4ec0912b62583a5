//! `disconnect`: the end of the connection, in every phase but after itself.
ghost use Rattle.std.specs.Prelude.{◌≡◌};
ghost use Rattle.handlers.specs.Given.{Given as AGiven};
ghost use Rattle.handlers.specs.Changes.{answering_as};
ghost use Rattle.handlers.specs.Disconnect as spec;

use crate::answer::Answer;
use crate::change::{Change, ProgramChange};
use crate::demand::Demand;
use crate::phase::Phase;
use crate::terms::Terms;
use protocol::disconnect::DisconnectArguments;
use replies::{Outcome, ResponseBody};

/// In which phases it is taken, and what it asks of the program.
pub(crate) fn demand() -> Demand
    ensures { result ≡ spec.demand }
{
    Demand::nothing()
}

/// The answer, and what it changes.
pub(crate) fn success(terms: Terms, arguments: &DisconnectArguments) -> Answer
    ensures { (given : AGiven)
        → answering_as given.debuggee result ≡ spec.success given terms arguments.now }
{
    let debugs = terms.phase.is_debugging();
    Answer {
        change: Change::OfProgram(ProgramChange::Leave {
            ends: debugs && arguments.terminate_debuggee.unwrap_or(terms.launched),
            stands: debugs && arguments.suspend_debuggee.unwrap_or(false),
        }),
        terms: terms.in_phase(Phase::Left),
        outcome: Outcome::Done(ResponseBody::Empty),
        event: None,
        closes: true,
    }
}

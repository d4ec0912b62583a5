//! `stepBack` and `reverseContinue`: the program goes back, by moves that are recorded.
ghost use Rattle.std.specs.Prelude.{◌≡◌, length};
ghost use Rattle.handlers.specs.Changes.{answering_as};
ghost use Rattle.handlers.specs.GoingBack as spec;

use crate::answer::{Answer, changing_program, refusing};
use crate::change::ProgramChange;
use crate::demand::Demand;
use crate::lent::Lent;
use crate::phase::Phases;
use protocol::Refusal;
use replies::ResponseBody;
use stepping::Goal;

/// In which phases it is taken, and what it asks of the program.
pub(crate) fn demand(thread: i32) -> Demand
    ensures { result ≡ spec.demand thread }
{
    Demand::still(thread).taken_in(Phases::Active)
}

/// The answer: the program goes back with this goal, or no move is recorded.
#[tactic(auto, using(crate::proofs::GoingBack::has_none, crate::proofs::GoingBack::has_some))]
pub(crate) fn success(lent: &Lent, goal: Goal) -> Answer
    ensures { answering_as lent.now.given.debuggee result
        ≡ spec.success lent.now.given lent.now.terms goal }
{
    if recorded(lent) == 0 {
        return refusing(lent.terms, Refusal::NoHistory, None);
    }
    changing_program(ProgramChange::Resume(goal), lent.terms, ResponseBody::Empty)
}

// How many moves are recorded.
fn recorded(lent: &Lent) -> usize
    ensures { result ≡ length (spec.past_of lent.now.given.debuggee.program) }
{
    match lent.program {
        Some(program) => program.machine().recorded(),
        None => 0,
    }
}

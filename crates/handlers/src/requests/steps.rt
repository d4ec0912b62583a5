//! `next`, `stepIn` and `stepOut`: the program continues, with a goal.
ghost use Rattle.std.specs.Prelude.{◌≡◌};
ghost use Rattle.handlers.specs.Given.{Given as AGiven};
ghost use Rattle.handlers.specs.Changes.{answering_as};
ghost use Rattle.handlers.specs.Stepping as spec;
ghost use Rattle.stepping.specs.declared.goal.Goal.TheVariants as goal;

use crate::answer::{Answer, changing_program};
use crate::change::ProgramChange;
use crate::demand::Demand;
use crate::phase::Phases;
use crate::terms::Terms;
use protocol::Granularity as Asked;
use replies::ResponseBody;
use stepping::{Goal, Granularity};

/// In which phases it is taken, and what it asks of the program.
pub(crate) fn demand(thread: i32) -> Demand
    ensures { result ≡ spec.demand thread }
{
    Demand::still(thread).taken_in(Phases::Active)
}

// What a step is: a statement is a line.
fn granularity_of(asked: Asked) -> Granularity
    ensures { result ≡ spec.granularity_of asked }
{
    match asked {
        Asked::Statement | Asked::Line => Granularity::Line,
        Asked::Instruction => Granularity::Instruction,
    }
}

/// The answer to `next`.
pub(crate) fn over(terms: Terms, asked: Asked) -> Answer
    ensures { (given : AGiven)
        → answering_as given.debuggee result
        ≡ spec.success given terms (goal.Over (spec.granularity_of asked)) }
{
    goes_on(terms, Goal::Over(granularity_of(asked)))
}

/// The answer to `stepIn`.
pub(crate) fn into(terms: Terms, asked: Asked) -> Answer
    ensures { (given : AGiven)
        → answering_as given.debuggee result
        ≡ spec.success given terms (goal.In (spec.granularity_of asked)) }
{
    goes_on(terms, Goal::In(granularity_of(asked)))
}

/// The answer to `stepOut`.
pub(crate) fn out(terms: Terms, asked: Asked) -> Answer
    ensures { (given : AGiven)
        → answering_as given.debuggee result
        ≡ spec.success given terms (goal.Out (spec.granularity_of asked)) }
{
    goes_on(terms, Goal::Out(granularity_of(asked)))
}

// The program continues with a goal.
fn goes_on(terms: Terms, goal: Goal) -> Answer
    ensures { (given : AGiven)
        → answering_as given.debuggee result ≡ spec.success given terms goal }
{
    changing_program(ProgramChange::Resume(goal), terms, ResponseBody::Empty)
}

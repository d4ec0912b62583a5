//! `setVariable`: a register gets another value.
ghost use Rattle.std.specs.Prelude.{◌≡◌, IfOk};
ghost use Rattle.handlers.specs.Changes.{answering_as};
ghost use Rattle.handlers.specs.SetVariable as spec;

use crate::answer::{Answer, agreeing, changing_program, refusing};
use crate::change::ProgramChange;
use crate::demand::Demand;
use crate::lent::Lent;
use crate::phase::Phases;
use answers::set_variable::answer;
use protocol::set_variable::SetVariableArguments;
use replies::ResponseBody;
use std::alloc::{AllocError, Global};

/// In which phases it is taken, and what it asks of the program.
pub(crate) fn demand() -> Demand
    ensures { result ≡ spec.demand }
{
    Demand::stopped().taken_in(Phases::Active)
}

/// The answer, by the program. `Err`: no memory was left.
pub(crate) fn success(
    alloc: Global,
    lent: &Lent,
    arguments: &SetVariableArguments,
) -> Result<Answer, AllocError>
    ensures { IfOk result (λ a. answering_as lent.now.given.debuggee a
        ≡ spec.success lent.now.given lent.now.terms arguments.now) }
{
    let terms = lent.terms;
    let Some(program) = lent.program else {
        return Ok(agreeing(terms, ResponseBody::Empty));
    };
    match answer(alloc, arguments, program.machine(), lent.handles)? {
        Ok(setting) => Ok(changing_program(
            ProgramChange::SetHart(setting.hart),
            terms,
            setting.body,
        )),
        Err(refusal) => Ok(refusing(terms, refusal, None)),
    }
}

//! `writeMemory`: bytes of memory are written.
ghost use Rattle.std.specs.Prelude.{◌≡◌, IfOk};
ghost use Rattle.handlers.specs.Changes.{answering_as};
ghost use Rattle.handlers.specs.WriteMemory as spec;

use crate::answer::{Answer, agreeing, changing_program, refusing};
use crate::change::ProgramChange;
use crate::demand::Demand;
use crate::lent::Lent;
use crate::phase::Phases;
use answers::write_memory::answer;
use protocol::write_memory::WriteMemoryArguments;
use replies::ResponseBody;
use std::alloc::{AllocError, Global};

/// In which phases it is taken, and what it asks of the program.
pub(crate) fn demand() -> Demand
    ensures { result ≡ spec.demand }
{
    Demand::stopped().taken_in(Phases::Active)
}

/// The answer, by the program. `Err`: no memory was left.
pub(crate) fn success(
    alloc: Global,
    lent: &Lent,
    arguments: &WriteMemoryArguments,
) -> Result<Answer, AllocError>
    ensures { IfOk result (λ a. answering_as lent.now.given.debuggee a
        ≡ spec.success lent.now.given lent.now.terms arguments.now) }
{
    let terms = lent.terms;
    let Some(program) = lent.program else {
        return Ok(agreeing(terms, ResponseBody::Empty));
    };
    match answer(arguments, program.machine().memory()) {
        Ok(writing) => {
            let bytes = Vec::from_slice(
                alloc,
                &arguments.bytes.as_slice()[..writing.count as usize],
            )?;
            let change = ProgramChange::Write {
                address: writing.address,
                bytes,
            };
            Ok(changing_program(change, terms, writing.body))
        }
        Err(refusal) => Ok(refusing(terms, refusal, None)),
    }
}

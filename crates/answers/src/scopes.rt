//! `scopes`: the scopes of a frame.

ghost use Rattle.std.specs.Prelude.{◌≡◌, Ok, Err, IfOk, IsTrue, OnErr};
ghost use Rattle.answers.specs.Looking.{look_by, may_allocate};
ghost use Rattle.answers.specs.Scopes as spec;

use crate::shown::Look;
use crate::targets::frame_of;
use protocol::{Entries, Refusal, ScopesArguments};
use replies::{ResponseBody, Scope, Scopes};
use std::alloc::{AllocError, Global};
use variables::{Handles, Target};

/// What is answered, and the scopes for which numbers have to be issued: the registers and the words of the stack where the frame is the
/// innermost, and none for another frame.
///
/// - `UnknownReference`: the number was never issued, or is a scope's.
/// - `StaleReference`: else it was issued in an earlier stop.
///
/// `Err`: no memory was left; a refusal takes none.
pub(crate) fn answer(
    alloc: Global,
    arguments: &ScopesArguments,
    handles: &Handles,
) -> Result<Look, AllocError>
    ensures answer { IfOk result
        (λ look. look_by look ≡ record {
          result = spec.scopes arguments.now handles.now;
          targets = spec.scopes_given arguments.now handles.now;
        }) }
    ensures granted { OnErr result (IsTrue (may_allocate (spec.scopes arguments.now handles.now))) }
{
    match frame_of(handles, arguments.frame_id) {
        Err(refusal) => Ok(Look {
            result: Err(refusal),
            targets: Vec::new(alloc),
        }),
        Ok(0) => innermost(alloc, handles),
        Ok(_) => Ok(Look {
            result: Ok(body_of(Vec::new(alloc))),
            targets: Vec::new(alloc),
        }),
    }
}

// The scopes of the innermost frame.
fn innermost(alloc: Global, handles: &Handles) -> Result<Look, AllocError>
    ensures { IfOk result (λ look. look_by look
        ≡ record { result = spec.body_by handles.now (Ok 0); targets = spec.scopes_of 0 }) }
{
    let targets = Vec::from_array(alloc, [Target::Registers, Target::Stack])?;
    let numbers = handles.to_come(&targets)?;
    let scopes = Vec::from_array(
        alloc,
        [
            Scope::Registers {
                variables_reference: numbers[0],
            },
            Scope::Stack {
                variables_reference: numbers[1],
            },
        ],
    )?;
    Ok(Look {
        result: Ok(body_of(scopes)),
        targets,
    })
}

fn body_of(scopes: Vec<Scope>) -> ResponseBody
    ensures { result ≡ ResponseBody.Scopes (record { scopes = scopes.items }) }
{
    ResponseBody::Scopes(Scopes {
        scopes: Entries::from_vec(scopes),
    })
}

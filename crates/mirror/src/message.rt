//! What a message makes of the facts.
ghost use Rattle.std.specs.Prelude.{◌≡◌, OnOk};
ghost use Rattle.mirror.specs.Folding.{answered, folded, happened};
ghost use Rattle.mirror.specs.Kept.{at, facts_of};
ghost use Rattle.std.specs.Prelude.{option_copied};

use crate::asked::{Asked, Requests};
use crate::known::Known;
use crate::response::succeed;
use facts::RunState;
use replies::{Event, Message, Outcome};
use std::alloc::{AllocError, Global};

/// The facts after a message, by what was asked. Where no memory is left, they may be any.
pub(crate) fn fold(
    alloc: Global,
    requests: &Requests,
    known: &mut Known,
    message: &Message,
) -> Result<(), AllocError>
    ensures { OnOk result (facts_of known.new
        ≡ folded (at requests.now) (facts_of known.old) message.now) }
{
    match message {
        Message::Event(event) => {
            happen(alloc, known, event);
            Ok(())
        }
        Message::Response(response) => answer(
            alloc,
            known,
            requests.get(response.request_seq),
            &response.outcome,
        ),
    }
}

// The facts after an event.
fn happen(alloc: Global, known: &mut Known, event: &Event)
    ensures { facts_of known.new ≡ happened event.now (facts_of known.old) }
{
    match event {
        Event::Stopped(_) => known.enter(alloc, RunState::Stopped),
        Event::Continued => known.enter(alloc, RunState::Running),
        Event::Exited(body) => known.run = RunState::Ended(Some(body.exit_code)),
        Event::Terminated => known.end(),
        Event::Initialized => {}
        Event::Output(_) => {}
    }
}

// The facts after a response to what was asked.
fn answer(
    alloc: Global,
    known: &mut Known,
    asked: Option<&Asked>,
    outcome: &Outcome,
) -> Result<(), AllocError>
    ensures { OnOk result (facts_of known.new
        ≡ answered (option_copied asked.entry) outcome.now (facts_of known.old)) }
{
    let Some(asked) = asked else {
        return Ok(());
    };
    match outcome {
        Outcome::Done(body) => succeed(alloc, known, asked, body),
        Outcome::Refused(_, _) => Ok(()),
    }
}

//! What a request is answered.
ghost use Rattle.std.specs.Prelude.{◌≡◌, false, []};
ghost use Rattle.debuggee.specs.Programs.{Debuggee as ADebuggee, with_program};
ghost use Rattle.handlers.specs.Given.{Given as AGiven};
ghost use Rattle.handlers.specs.Changes.{answering_as, call_of, call_of_one, changed, changed_one};
ghost use Rattle.handlers.specs.Successes as spec;

use crate::change::{Change, ProgramChange};
use crate::terms::Terms;
use protocol::{Refusal, Text};
use replies::{Event, Outcome, ResponseBody};

/// What a request is answered.
#[derive(Drop)]
pub struct Answer {
    /// What it changes first.
    pub change: Change,
    /// What is agreed on the connection then.
    pub terms: Terms,
    /// What becomes of the request.
    pub outcome: Outcome,
    /// What the editor is told after it.
    pub event: Option<Event>,
    /// Whether the connection takes nothing more then.
    pub closes: bool,
}

/// A success that changes nothing but what is agreed.
pub(crate) fn agreeing(terms: Terms, body: ResponseBody) -> Answer
    ensures { (given : AGiven)
        → answering_as given.debuggee result ≡ spec.agreeing given terms body }
{
    changing(Change::Nothing, terms, body)
}

/// A success that changes the program that is debugged.
pub(crate) fn changing(change: Change, terms: Terms, body: ResponseBody) -> Answer
    ensures { (d : ADebuggee) → answering_as d result
        ≡ record {
          debuggee = changed change d;
          references = call_of change;
          terms = terms;
          outcome = Outcome.Done body;
          events = [];
          closes = false;
        } }
{
    Answer {
        change,
        terms,
        outcome: Outcome::Done(body),
        event: None,
        closes: false,
    }
}

/// A refusal.
pub fn refusing(terms: Terms, refusal: Refusal, text: Option<Text>) -> Answer
    ensures { (given : AGiven)
        → answering_as given.debuggee result ≡ spec.refusing given terms refusal text }
{
    Answer {
        change: Change::Nothing,
        terms,
        outcome: Outcome::Refused(refusal, text),
        event: None,
        closes: false,
    }
}

/// A success that changes the program, if there is one.
pub(crate) fn changing_program(change: ProgramChange, terms: Terms, body: ResponseBody) -> Answer
    ensures { (d : ADebuggee) → answering_as d result
        ≡ record {
          debuggee = with_program (changed_one change) d;
          references = call_of_one change;
          terms = terms;
          outcome = Outcome.Done body;
          events = [];
          closes = false;
        } }
{
    changing(Change::OfProgram(change), terms, body)
}

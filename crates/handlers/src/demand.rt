//! In which phases a request is taken, and what it asks of the program that is debugged.
ghost use Rattle.std.specs.Prelude.{◌≡◌};
ghost use Rattle.handlers.specs.Demands as spec;

use crate::phase::Phases;

/// In which phases a request is taken, and what it asks of the program that is debugged, before anything else is looked at.
#[derive(Clone, Copy, Debug, PartialEq, Eq)]
pub struct Demand {
    /// The phases.
    pub phases: Phases,
    /// There is one.
    pub loaded: bool,
    /// It has not ended.
    pub alive: bool,
    /// It has this thread.
    pub thread: Option<i32>,
    /// It stands still.
    pub still: bool,
}

impl Demand {
    /// Nothing, in all phases until the editor has left.
    pub fn nothing() -> Demand
        ensures { result ≡ spec.asks_nothing }
    {
        Demand {
            phases: Phases::There,
            loaded: false,
            alive: false,
            thread: None,
            still: false,
        }
    }

    /// There is a program.
    pub(crate) fn program() -> Demand
        ensures { result ≡ spec.asks_program }
    {
        Demand {
            phases: Phases::There,
            loaded: true,
            alive: false,
            thread: None,
            still: false,
        }
    }

    /// It has not ended.
    pub(crate) fn alive() -> Demand
        ensures { result ≡ spec.asks_alive }
    {
        Demand {
            phases: Phases::There,
            loaded: true,
            alive: true,
            thread: None,
            still: false,
        }
    }

    /// It has not ended, and this is its thread.
    pub(crate) fn thread(number: i32) -> Demand
        ensures { result ≡ spec.asks_thread number }
    {
        Demand {
            phases: Phases::There,
            loaded: true,
            alive: true,
            thread: Some(number),
            still: false,
        }
    }

    /// It has not ended, and stands still.
    pub(crate) fn stopped() -> Demand
        ensures { result ≡ spec.asks_stopped }
    {
        Demand {
            phases: Phases::There,
            loaded: true,
            alive: true,
            thread: None,
            still: true,
        }
    }

    /// It has not ended, this is its thread, and it stands still.
    pub(crate) fn still(number: i32) -> Demand
        ensures { result ≡ spec.asks_still number }
    {
        Demand {
            phases: Phases::There,
            loaded: true,
            alive: true,
            thread: Some(number),
            still: true,
        }
    }

    /// This demand, in these phases.
    pub(crate) fn taken_in(self, phases: Phases) -> Demand
        ensures { result ≡ spec.taken_in phases self }
    {
        Demand { phases, ..self }
    }
}

//! What holds of every execution: each law is the contract of a function that does nothing.

ghost use Rattle.execution.specs.Laws.{EndsWhereARunStops};

/// An execution ends where a run of the machine stops: at the least number at which a reason to stop applies, and for the first
/// reason there.
pub fn executions_end_where_a_run_stops()
    ensures { EndsWhereARunStops }
{}

//! What the definitions promise, of expressions and over many checks: each law is the contract of a function that does nothing.

ghost use Rattle.breakpoints.specs.Laws.{LogsFromItsHit, ResetCountsAnew, StopsFromItsHit};
ghost use Rattle.breakpoints.specs.Texts.{TreeIsUnique};

/// A text has at most one tree.
pub fn tree_is_unique()
    ensures { TreeIsUnique }
{}

/// A breakpoint stops from its N-th hit on, N being the number that it was set with: at each check where it is hit, and was hit N - 1
/// times before. A logpoint never stops.
pub fn stops_from_its_hit()
    ensures { StopsFromItsHit }
{}

/// A logpoint says its text from its N-th hit on, where another breakpoint would stop.
pub fn logs_from_its_hit()
    ensures { LogsFromItsHit }
{}

/// A breakpoint whose hits were taken away stops as one that was just set: from its N-th hit since then on.
pub fn reset_counts_anew()
    ensures { ResetCountsAnew }
{}

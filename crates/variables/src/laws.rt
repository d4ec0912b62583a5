//! What holds of numbers over any list of calls: each law is the contract of a function that does nothing.

ghost use Rattle.variables.specs.Laws.{EndedAreStale, IssuedAreFound, NumbersRise, NumbersStay};

/// Numbers rise from 1, one by one: none comes twice, and none is left out.
pub fn numbers_rise()
    ensures { NumbersRise }
{}

/// Each target for which numbers are issued has one then, by which it is found, and which stays the same as long as the stop lasts.
pub fn issued_are_found()
    ensures found { IssuedAreFound }
    ensures stay { NumbersStay }
{}

/// What was issued is stale when the stop has ended; what was not is as unknown as before.
pub fn ended_are_stale()
    ensures { EndedAreStale }
{}

//! What holds of the moves of a program: each law is the contract of a function that does nothing.

ghost use Rattle.debuggee.specs.Laws.{MovesAreTicks};

/// A move is the one tick of the program's machine: it comes to what that answers, and leaves what that leaves.
pub fn moves_are_ticks()
    ensures { MovesAreTicks }
{}

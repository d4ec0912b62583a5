//! What holds of every program: each law is the contract of a function that does nothing.

ghost use Rattle.course.specs.Laws.{ReturnsKeepCalls, ReturnsKeepDepth};

/// Calls that returned leave the depth as it was. Of the earlier calls they leave those that were
/// never forgotten meanwhile, and no other comes back.
pub fn returns_undo_calls()
    ensures depth { ReturnsKeepDepth }
    ensures calls { ReturnsKeepCalls }
{}

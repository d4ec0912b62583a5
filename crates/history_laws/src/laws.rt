//! What holds of going back after any list of events, as theorems: functions that do nothing, whose clauses say it.
ghost use Rattle.std.specs.Prelude.{List};
ghost use Rattle.session.specs.Reached.{Happened, Reached};
ghost use Rattle.session.specs.Sessions.{Beginning as ABeginning, Session as ASession};
ghost use Rattle.history_laws.specs.Recorded.{AreGivenUp, EventsAreCounted, EveryPastIsARun, TicksAreCounted};
ghost use Rattle.history_laws.specs.Refused.{NoHistoryExactly};
ghost use Rattle.history_laws.specs.GoingBack.{TurnsBeginBack};
ghost use Rattle.history_laws.specs.SteppingBack.{OneEarlier, StepsGoOneBack};
ghost use Rattle.history_laws.specs.RunningBack.{RunsBackStopThere, RunsBackToTheNewest};
ghost use Rattle.history_laws.specs.Again.{BackAndForthAgain, MovesAreMade, MovesAreUndone};
ghost use Rattle.history_laws.specs.ByRequests.{PrintsAgain, ThereAndBack};

/// Whatever happens, the program's machine is where the recorded moves lead from the oldest recorded position: each position makes one
/// move to the next; and 65,536 are recorded at most.
pub fn every_past_is_a_run()
    ensures { (from : ABeginning) (happened : List Happened)
        → EveryPastIsARun (Reached from happened) }
{}

/// Nothing is recorded of a program that was loaded or restarted, nor after its machine was changed from outside, as a success of
/// `setVariable` or `writeMemory` does. A move at which an instruction retires is one more, up to 65,536, and one that is undone is one
/// less; a trap, the end of the program and the check at its entry leave the number as it was. This holds of each event, whatever happened
/// before it.
pub fn moves_are_counted()
    ensures ticks { TicksAreCounted }
    ensures changes { AreGivenUp }
    ensures events { (from : ABeginning) (happened : List Happened)
        → EventsAreCounted (Reached from happened) }
{}

/// A `stepBack` or a `reverseContinue` is refused with `noHistory` exactly where no refusal comes before and nothing is recorded.
pub fn no_history_exactly()
    ensures { (s : ASession) → NoHistoryExactly s }
{}

/// After a success of `stepBack` or of `reverseContinue` the program goes back from where it stood, where at least one move is
/// recorded.
pub fn turns_begin_back()
    ensures { (from : ABeginning) (happened : List Happened)
        → TurnsBeginBack (Reached from happened) }
{}

/// A program that steps back stands one move earlier then, with the reason `step`, or where it stood, if a mark stopped it; or it still
/// runs towards that. So it is whatever happens, until the editor leaves, or the program begins anew or ends. One move earlier is what
/// one move less than is recorded makes of the oldest recorded position.
pub fn steps_back_one()
    ensures steps { (s : ASession) → StepsGoOneBack s }
    ensures earlier { OneEarlier }
{}

/// Where slices stop a program that runs back, it is at the newest recorded position at which a breakpoint stood when the first of them
/// began, and else at the oldest. Of n recorded moves that is where j lead from the oldest position: j is the greatest number below n such
/// that a breakpoint stands where j lead, and else 0.
pub fn runs_back_stop_there()
    ensures slices { (s : ASession) → RunsBackStopThere s }
    ensures place { RunsBackToTheNewest }
{}

/// Whatever happened, the next move of the program is one of its hart, and what is printed is what the hart answers to it; or, where the
/// program goes back, the newest recorded move is undone. From as many moves back as one likes, as many lead to where the machine is; and
/// whichever do, they lead there and are answered as those were: a number that was printed on the way is printed again.
pub fn moves_are_made_again()
    ensures made { (from : ABeginning) (happened : List Happened)
        → MovesAreMade (Reached from happened) }
    ensures undone { (s : ASession) → MovesAreUndone s }
    ensures again { (from : ABeginning) (happened : List Happened)
        → BackAndForthAgain (Reached from happened) }
{}

/// An editor steps back some number of times, by `stepBack`, and then steps in as many times, by instruction. Where no mark and no limit
/// stops the program, and nothing else changes it, its machine is the one that it was then: hart, memory, calls and the moves that are
/// recorded, how many instructions have retired, and which. Each step forth makes the move again that a step back undid, and prints what
/// the hart answers to it, so that a number that was printed is printed again.
pub fn back_and_forth_by_requests()
    ensures machine { ThereAndBack }
    ensures printed { PrintsAgain }
{}

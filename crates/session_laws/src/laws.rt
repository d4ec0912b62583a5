//! What holds of a session whatever happened, of its messages, and of what an editor knows by them, as theorems: functions that do nothing,
//! whose clauses say it.
ghost use Rattle.std.specs.Prelude.{◌≡◌, ℕ, List, map};
ghost use Rattle.session.specs.declared.event.Event.{Event as AnEvent};
ghost use Rattle.session.specs.Reached.{Happened, Reached, Whole};
ghost use Rattle.session.specs.Sessions.{After, Beginning as ABeginning, Session as ASession};
ghost use Rattle.session_laws.specs.Calls.{CallsLead, LeadsOn};
ghost use Rattle.session_laws.specs.Concluding.{WhatIsKnownWasSo};
ghost use Rattle.session_laws.specs.Headline.{MirrorsHoldWhatWasSo};
ghost use Rattle.session_laws.specs.Joining.{JoinedLeadToTheSame};
ghost use Rattle.session_laws.specs.Known.{SuccessesAreKnown};
ghost use Rattle.session_laws.specs.Laws as law;
ghost use Rattle.session_laws.specs.Lifetimes.{ReferencesLast, ReferencesRise, ReferencesStand};
ghost use Rattle.session_laws.specs.Messages.{HasPath, MessagesAreReadable, MessagesAreShort, TextsAreUtf8};
ghost use Rattle.session_laws.specs.News.{IsSeenAfter};
ghost use Rattle.session_laws.specs.Printed.{WhatIsPrintedRuns};
ghost use Rattle.session_laws.specs.References.{ReferencesWereGood};
ghost use Rattle.session_laws.specs.Retiring.{FramesAreOfThePast, PastIsRemembered};
ghost use Rattle.session_laws.specs.Stopping.{SlicesStopThere};

/// For every list of events (requests cut anywhere, repeated or cancelled, slices, bytes taken, drops, connections, restarts), an editor's
/// mirror, fed any prefix of the bytes of its connection, holds only facts that were true of the machine when the last whole message in that
/// prefix was queued, and a reference is answered only in the stop and on the connection that issued it.
pub fn what_an_editor_concludes_was_true()
    ensures facts { (from : ABeginning) (happened : List Happened)
        → HasPath from → MirrorsHoldWhatWasSo (Reached from happened) }
    ensures references { (from : ABeginning) (happened : List Happened)
        → ReferencesWereGood from happened }
{}

/// Whatever happens, each success answers the first request that came with its number, and names it.
pub fn successes_are_known()
    ensures { (from : ABeginning) (happened : List Happened) → SuccessesAreKnown (Reached from happened) }
{}

/// Whatever happens, what an editor knows by the first bytes of a connection, however many it got, was so when the last message that lies
/// wholly in them was queued: how the program runs, its breakpoints, its frames, its registers and its memory.
pub fn what_an_editor_knows_was_so()
    ensures { (from : ABeginning) (happened : List Happened) (connection count : ℕ)
        → WhatIsKnownWasSo (Reached from happened) connection count }
{}

/// Whatever happens, what the program prints is told while it runs, also where it stops with it; and so is what a logpoint says.
pub fn what_is_printed_runs()
    ensures { (from : ABeginning) (happened : List Happened) → WhatIsPrintedRuns (Reached from happened) }
{}

/// Whatever happened, after a turn, and after a slice that makes no move, or one where nothing is left to be told before it, what can be
/// seen is what could be seen at each message that it queued; at what the program printed or a logpoint says, while the program ran.
pub fn what_was_seen_is_seen_after()
    ensures { (from : ABeginning) (happened : List Happened) → IsSeenAfter (Reached from happened) }
{}

/// Whatever a session represents, after a call it represents what that leads to: what its event leaves; where a slice found no memory, what
/// the beats that it made leave; or, where another event found none, the same as before. From what was reached that leads to
/// what is reached, and events that are done lead to what they leave.
pub fn calls_lead_to_what_is_reached()
    ensures calls { CallsLead }
    ensures joined { LeadsOn }
    ensures events { (from : ABeginning) (events : List AnEvent)
        → Reached from (map Whole events) ≡ After from events }
{}

/// Whatever happens, the life of the last connection that was made is at the place that is its number.
pub fn lives_are_numbered()
    ensures { (from : ABeginning) (happened : List Happened)
        → law.LivesAreNumbered (Reached from happened) }
{}

/// Whatever happens, the bytes that were taken of a connection are a prefix of its bytes, and on the
/// present connection the bytes that wait are the rest: none is lost, doubled or changed.
pub fn every_byte_is_taken_or_waits()
    ensures { (from : ABeginning) (happened : List Happened)
        → law.EveryByteIsTakenOrWaits (Reached from happened) }
{}

/// Whatever happens, the messages of a connection have the numbers 1, 2, 3 and so on.
pub fn numbers_rise()
    ensures { (from : ABeginning) (happened : List Happened) → law.NumbersRise (Reached from happened) }
{}

/// Whatever happens, the requests of a connection have one answer each, in the order in which they
/// came, for a prefix of them; the others wait, as long as there are numbers for answers.
pub fn answers_in_order()
    ensures { (from : ABeginning) (happened : List Happened) → law.AnswersInOrder (Reached from happened) }
{}

/// Whatever happens, the requests that came on a connection are those of the bytes that were
/// accepted on it.
pub fn requests_are_read()
    ensures { (from : ABeginning) (happened : List Happened)
        → law.RequestsAreRead (Reached from happened) }
{}

/// Whatever happens, what closed the last connection is the fault of the bytes that were accepted on
/// it, if they have one.
pub fn fault_is_of_the_bytes()
    ensures { (from : ABeginning) (happened : List Happened)
        → law.FaultIsOfTheBytes (Reached from happened) }
{}

/// Whatever happened, two pieces leave what they leave as one.
pub fn cuts_do_not_matter()
    ensures { (from : ABeginning) (happened : List Happened)
        → law.CutsDoNotMatter (Reached from happened) }
{}

/// An event that is refused changes nothing.
pub fn refused_changes_nothing()
    ensures { (s : ASession) → law.RefusedChangesNothing s }
{}

/// Whatever happens, each answer is a message that an adapter may send.
pub fn answers_are_proper()
    ensures { (from : ABeginning) (happened : List Happened)
        → law.AnswersAreProper (Reached from happened) }
{}

/// Whatever happens, `initialize` succeeds once at most on a connection.
pub fn initializes_once()
    ensures { (from : ABeginning) (happened : List Happened)
        → law.InitializesOnce (Reached from happened) }
{}

/// Whatever happens, each message says of the program's run what was so of the program when it was queued: a stop that
/// it stood still, and why; a success of `continue`, of a step and of `restart` that it ran; an exit with which code it
/// had ended.
pub fn runs_are_told()
    ensures { (from : ABeginning) (happened : List Happened) → law.RunsAreTold (Reached from happened) }
{}

/// Two slices, one after the other, leave what one of all their moves leaves, and as many moves are made
/// in them.
pub fn slices_join()
    ensures { (s : ASession) → law.SlicesJoin s }
{}

/// Events lead to the same where slices that follow each other are one of all their moves: so what was recorded queues the same bytes on each
/// connection when it is played again.
pub fn joined_events_lead_to_the_same()
    ensures { JoinedLeadToTheSame }
{}

/// Each slice ends within the beats that are enough for its moves, so that more of them would change nothing.
pub fn slices_end()
    ensures { (s : ASession) → law.SlicesEnd s }
{}

/// A slice leaves the program stopped, or ended, for a reason of its machine exactly where a run of that machine stops, counted from the
/// machine that the slice begins with: at the least number of moves at which a reason applies, for the first of the reasons there. Where it
/// leaves it otherwise, none applied. So it is where the program does not go back, also where the slice found no memory; what the program
/// owes is told first, and where that stops it, no move is made.
pub fn slices_stop_there()
    ensures { (s : ASession) → SlicesStopThere s }
{}

/// A program that runs and is marked to stop retires no instruction and undoes none: whatever happens, until it does not run, or its
/// editor leaves, which is when its connection ends or a `disconnect` succeeds. A turn that answers a `pause` with success leaves it
/// marked.
pub fn marked_retires_none()
    ensures marked { (s : ASession) → law.MarkedRetiresNone s }
    ensures pause { (s : ASession) → law.PauseMarks s }
{}

/// Whatever happens, the depth, the calls and the count of the program's machine are those of all that has retired since it was loaded or
/// restarted; and its frames are at pc and at the calls that are kept of these instructions, the newest first.
pub fn past_is_remembered()
    ensures past { PastIsRemembered }
    ensures frames { FramesAreOfThePast }
{}

/// Whatever happens, references have the numbers 1, 2, 3 and so on: none is issued twice.
pub fn references_rise()
    ensures { (from : ABeginning) (happened : List Happened) → ReferencesRise (Reached from happened) }
{}

/// Whatever happens, the numbers of the present stop are those of all references that were ever issued.
pub fn references_stand()
    ensures { (from : ABeginning) (happened : List Happened) → ReferencesStand (Reached from happened) }
{}

/// Whatever happened, a request that names a frame or a scope succeeds only with a number that was issued in this stop, on this
/// connection; it is refused as stale exactly where nothing comes before and the number was issued in an earlier stop, and as unknown
/// exactly where nothing comes before and the number was never issued, or in this stop for something of another kind.
pub fn references_last()
    ensures { (from : ABeginning) (happened : List Happened) → ReferencesLast (Reached from happened) }
{}

/// Whatever happens, the texts of each message are UTF-8, where the path of the program that was given at the start is.
pub fn texts_are_utf8()
    ensures { (from : ABeginning) (happened : List Happened)
        → HasPath from → TextsAreUtf8 (Reached from happened) }
{}

/// Whatever happens, the text of each message has fewer than 4,294,967,295 bytes, which is what a
/// mirror reads of one.
pub fn messages_are_short()
    ensures { (from : ABeginning) (happened : List Happened)
        → HasPath from → MessagesAreShort (Reached from happened) }
{}

/// Whatever happens, each message can be read: its texts are UTF-8, and a mirror reads all its
/// bytes.
pub fn messages_are_readable()
    ensures { (from : ABeginning) (happened : List Happened)
        → HasPath from → MessagesAreReadable (Reached from happened) }
{}

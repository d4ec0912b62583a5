//! What holds of every recording: each law is the contract of a function that does nothing.
ghost use Rattle.scripts.specs.Laws.{CutLinesSayNothing, EventsAreReadBack, FramesAreSent, LastLinesMakeScripts};
ghost use Rattle.scripts.specs.RecorderLaws.{
  EndsMakeScripts,
  JoinedAreTheSame,
  NothingIsRecorded,
  PathsHaveLines,
  RecordingsAreRead,
  TellingRecords,
  TurnsAreRecorded,
};

/// Events that were written are read back, and what comes after the last line feed says nothing.
pub fn events_are_read_back()
    ensures { EventsAreReadBack }
{}

/// Wherever what was written of events is cut, it reads as the first of them.
pub fn cut_lines_say_nothing()
    ensures { CutLinesSayNothing }
{}

/// With a last line that says that all for a connection is watched, what was written of events is a script of them.
pub fn last_lines_make_scripts()
    ensures { LastLinesMakeScripts }
{}

/// The smallest frame of a body that a line can end with is written as `send` and that body.
pub fn frames_are_sent()
    ensures { FramesAreSent }
{}

/// Before anything is told, the script has no line of it.
pub fn nothing_is_recorded()
    ensures { NothingIsRecorded }
{}

/// Whatever is told, the script has the lines of the joined events, but of the slice that waits; or the recording has ended, and it has the
/// first of these lines, the last perhaps in part.
pub fn telling_records()
    ensures { TellingRecords }
{}

/// It is so after a turn that was given a text, too: the turn then has the copy's path.
pub fn turns_are_recorded()
    ensures { TurnsAreRecorded }
{}

/// A turn with the path of a copy has a line.
pub fn paths_have_lines()
    ensures { PathsHaveLines }
{}

/// The joined events are the events, but that slices that follow each other may be one of all their moves.
pub fn joined_are_the_same()
    ensures { JoinedAreTheSame }
{}

/// What is recorded reads as the first of the joined events, wherever it is cut.
pub fn recordings_are_read()
    ensures { RecordingsAreRead }
{}

/// Once its end is written, it is a script of the joined events.
pub fn ends_make_scripts()
    ensures { EndsMakeScripts }
{}

//! What holds of all messages, each law as the contract of a function that does nothing.
ghost use Rattle.replies.specs.Laws.{TextHasValue, WrittenIsRead, ValuesDiffer, ReadingIsRight, NamesRise};

/// What is written for a message has its JSON value, and is read as that message.
pub fn written_is_read()
    ensures value { TextHasValue }
    ensures message { WrittenIsRead }
{}

/// No two messages have one JSON value.
pub fn values_differ()
    ensures { ValuesDiffer }
{}

/// What bytes are read as is what they are.
pub fn reading_is_right()
    ensures { ReadingIsRight }
{}

/// In each object of a message the names rise, byte for byte.
pub fn names_rise()
    ensures { NamesRise }
{}

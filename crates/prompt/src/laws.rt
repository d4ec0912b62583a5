//! What holds of every line. Here is only a law.
ghost use Rattle.prompt.specs.Laws.{NothingIsLost};

/// Whatever is read of a line is all that stands on it, blanks apart: its word, and what belongs to that, in order.
pub fn nothing_is_lost()
    ensures { NothingIsLost }
{}

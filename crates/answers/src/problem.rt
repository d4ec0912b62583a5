//! Why a breakpoint is not set.

ghost use Rattle.std.specs.Prelude.{◌≡◌, IfOk};
ghost use Rattle.answers.specs.Breakpoints.{message_of};

use protocol::Text;
use std::alloc::{AllocError, Global};

/// Why a breakpoint is not set, in the order in which this is looked at.
#[derive(Clone, Copy, PartialEq, Eq)]
pub(crate) enum Problem {
    /// The source is not the program's.
    UnknownSource,
    /// The condition is no expression.
    BadCondition,
    /// The hit condition is no number from 1 to 4,294,967,295.
    BadHitCondition,
    /// The function's name is no label.
    UnknownFunction,
    /// No line from the asked one on has code.
    NoCode,
    /// The reference is none, or it or the label is an address outside memory or at no multiple of 4.
    BadAddress,
}

impl Problem {
    /// The message that an editor shows. It fails where no memory is left.
    pub(crate) fn message(self, alloc: Global) -> Result<Text, AllocError>
        ensures { IfOk result (λ text. text ≡ message_of self) }
    {
        Ok(Text::from_string(String::from_str(alloc, self.words())?))
    }

    fn words(self) -> &'static str
        ensures { result.now ≡ message_of self }
    {
        match self {
            Problem::UnknownSource => "unknown source",
            Problem::BadCondition => "bad condition",
            Problem::BadHitCondition => "bad hit condition",
            Problem::UnknownFunction => "unknown function",
            Problem::NoCode => "no code at or after this line",
            Problem::BadAddress => "bad address",
        }
    }
}

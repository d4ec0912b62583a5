//! Why the program ends: its status, and its line on standard error.
ghost use Rattle.std.specs.Prelude.{◌≡◌, option_map};
ghost use Rattle.commands.specs.ExitReasons as spec;

/// Why the program ends.
#[derive(Clone, Copy, Debug, PartialEq, Eq)]
pub enum ExitReason {
    /// All was said, or the input ended; or a listing was written.
    Success,
    /// What came is no message of the protocol.
    BadMessage,
    /// A read or a write failed, or the turns were used up.
    ReadOrWriteFault,
    /// No memory was left.
    NoMemory,
}

impl ExitReason {
    /// The status of the process.
    pub(crate) fn status(self) -> u8
        ensures { result ≡ spec.status_of self }
    {
        match self {
            ExitReason::Success => 0,
            ExitReason::BadMessage | ExitReason::ReadOrWriteFault | ExitReason::NoMemory => 1,
        }
    }

    /// What the line on standard error says after `rvdap: `, if there is one.
    pub(crate) fn reason(self) -> Option<&'static str>
        ensures { option_map (λ text. text.now) result ≡ spec.reason_of self }
    {
        match self {
            ExitReason::Success => None,
            ExitReason::BadMessage => Some("bad message"),
            ExitReason::ReadOrWriteFault => Some("read or write fault"),
            ExitReason::NoMemory => Some("no memory"),
        }
    }
}

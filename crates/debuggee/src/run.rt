//! Whether a program runs, and why it stopped.
ghost use Rattle.std.specs.Prelude.{◌≡◌};
ghost use Rattle.debuggee.specs.Programs.{why_marked};

use stepping::Reason;

/// Whether a program runs (Debug Adapter Protocol, "Stopping and accessing debuggee state", "Debug session end").
#[derive(Clone, Copy, Debug, PartialEq, Eq)]
pub enum Run {
    /// It runs, or will as soon as it is given time.
    Running,
    /// It stands still.
    Stopped(Why),
    /// It has ended: with this code, or without one where it was made to.
    Ended(Option<i32>),
}

/// Why a program stands still (Debug Adapter Protocol, `StoppedEvent.reason`).
#[derive(Clone, Copy, Debug, PartialEq, Eq)]
pub enum Why {
    /// It is at its entry.
    Entry,
    /// It was asked to stand still.
    Pause,
    /// As many instructions have retired as may since it was loaded.
    Limit,
    /// A move, or the check at the entry, met this.
    Met(Reason),
}

/// That a program is to stand still before its next move, and for whom.
#[derive(Clone, Copy, Debug, PartialEq, Eq)]
pub enum Mark {
    /// It is to stand still at its entry.
    Entry,
    /// An editor asked for it.
    Pause,
    /// Whoever gives it time asked for it, to hear what the editor says.
    Hold,
}

impl Mark {
    /// Why a program with this mark stands still: at its entry, or as it was asked to.
    pub fn why(self) -> Why
        ensures { result ≡ why_marked self }
    {
        match self {
            Mark::Entry => Why::Entry,
            Mark::Pause | Mark::Hold => Why::Pause,
        }
    }
}

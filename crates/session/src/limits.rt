//! The last numbers that a session gives.
ghost use Rattle.std.specs.Prelude.{◌≡◌};
ghost use Rattle.session.specs.Limits.{greatest_limits, are_limits};

use protocol::LAST_SEQ;

/// The last numbers that a session gives, each at least 1.
#[derive(Clone, Copy, Debug, PartialEq, Eq)]
pub struct Limits {
    /// The last number of a message on a connection, at most 2,147,483,647
    /// (`ProtocolMessage.seq`).
    pub last_seq: u32,
    /// The last number of a breakpoint (`Breakpoint.id`), and the last reference to a frame or to variables,
    /// each at most 2,147,483,647.
    pub last_ref: u32,
    /// How many instructions retire at most since the machine was loaded, at most 2^62. Those that were undone do not count.
    pub last_retired: u64,
}

const GREATEST_REF: u32 = 2_147_483_647;

const GREATEST_RETIRED: u64 = 1 << 62;

impl Limits {
    /// The greatest limits.
    pub fn greatest() -> Limits
        ensures { result ≡ greatest_limits }
    {
        Limits {
            last_seq: LAST_SEQ,
            last_ref: GREATEST_REF,
            last_retired: GREATEST_RETIRED,
        }
    }

    /// Whether each is at least 1 and at most its greatest value.
    pub(crate) fn are_right(&self) -> bool
        ensures { result ≡ are_limits self.now }
    {
        let are_given = self.last_seq > 0 && self.last_ref > 0 && self.last_retired > 0;
        let are_small = self.last_seq <= LAST_SEQ
            && self.last_ref <= GREATEST_REF
            && self.last_retired <= GREATEST_RETIRED;
        are_given && are_small
    }
}

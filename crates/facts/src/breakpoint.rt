//! A breakpoint.

/// A breakpoint that is set (`Breakpoint`).
#[derive(Clone, Copy, Debug, PartialEq, Eq)]
pub struct BreakInfo {
    /// The number by which a stop names it.
    pub id: u32,
    /// The address at which it stops.
    pub address: u32,
}

//! The breakpoints of a debugged machine, lent to be set.

ghost use Rattle.std.specs.Prelude.{◌≡◌};
ghost use Rattle.stepping.specs.Lending.{LendsBreaks};
ghost use Rattle.std.specs.Borrow.{sem};

use crate::runner::Runner;
use breakpoints::Breaks;

impl Runner {
    /// The breakpoints, to be set. All else of the machine stays.
    pub fn breaks_mut(&mut self) -> &mut Breaks
        ensures* writes_back { sem 𝓛 (LendsBreaks self.entry result) }
        ensures value { result.now ≡ self.old.lists }
    {
        &mut self.breaks
    }
}

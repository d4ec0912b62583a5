//! Counts that end.
ghost use Rattle.std.specs.Prelude.{◌≡◌};
ghost use Rattle.wires.specs.Wires.{one_more};

// A count that grows by one.
pub(crate) fn one_more(count: u64) -> u64
    ensures { result ≡ one_more count }
{
    if count < u64::MAX { count + 1 } else { count }
}

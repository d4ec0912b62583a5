//! Names of members that the adapter never looks at, and names that stand for a choice.
ghost use Rattle.std.specs.Prelude.{◌≡◌};
ghost use Rattle.requests.specs.Arguments as spec;

use protocol::{Filter, Granularity};

/// Which adapter the editor means to talk to (`InitializeRequestArguments.adapterID`).
pub(crate) const ADAPTER_ID: &str = "adapterID";
/// This one.
pub(crate) const RVDAP: &str = "rvdap";
/// The exceptions to stop at (`SetExceptionBreakpointsArguments.filters`).
pub(crate) const FILTERS: &str = "filters";

/// How far a step goes, by its name in the schema.
pub(crate) fn granularity_name(granularity: Granularity) -> &'static str
    ensures { result.now ≡ spec.granularity_name granularity }
{
    match granularity {
        Granularity::Statement => "statement",
        Granularity::Line => "line",
        Granularity::Instruction => "instruction",
    }
}

/// A kind of variables, by its name in the schema.
pub(crate) fn filter_name(filter: Filter) -> &'static str
    ensures { result.now ≡ spec.filter_name filter }
{
    match filter {
        Filter::Indexed => "indexed",
        Filter::Named => "named",
    }
}

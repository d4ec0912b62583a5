//! Goals as arguments: `go`, `in`, `over` or `out` with `line` or `instruction`, and those that go back, `back` and `reverse`.

use stepping::{Goal, Granularity};
use testing::Fault;

/// The goal that arguments name.
pub(crate) fn goal_of(arguments: &[&str]) -> Result<Goal, Fault> {
    match arguments {
        ["go"] => Ok(Goal::Go),
        ["in", granularity] => Ok(Goal::In(granularity_of(granularity)?)),
        ["over", granularity] => Ok(Goal::Over(granularity_of(granularity)?)),
        ["out", granularity] => Ok(Goal::Out(granularity_of(granularity)?)),
        ["back"] => Ok(Goal::Back),
        ["reverse"] => Ok(Goal::ReverseGo),
        _ => Err(Fault::NoCommand),
    }
}

fn granularity_of(argument: &str) -> Result<Granularity, Fault> {
    match argument {
        "line" => Ok(Granularity::Line),
        "instruction" => Ok(Granularity::Instruction),
        _ => Err(Fault::NoCommand),
    }
}

//! The list that an answer sets.
//!
//! `none` where no list is set, else `list` and each breakpoint as `ID:ADDRESS:HIT`. One with a condition has a further `:` and the
//! condition's value on the machine, or `Outside`. A logpoint is followed by `log` and its text as bytes.

use breakpoints::BreakSpec;
use std::alloc::Global;
use stepping::Runner;
use testing::{Fault, Line};

/// The list as words.
pub(crate) fn show_list(
    alloc: Global,
    runner: &Runner,
    list: Option<Vec<BreakSpec>>,
    line: &mut Line,
) -> Result<(), Fault> {
    let Some(list) = list else {
        return line.word("none");
    };
    line.word("list")?;
    for spec in &list {
        show_breakpoint(alloc, runner, spec, line)?;
        show_log(spec, line)?;
    }
    Ok(())
}

fn show_log(spec: &BreakSpec, line: &mut Line) -> Result<(), Fault> {
    match &spec.log {
        None => Ok(()),
        Some(text) => {
            line.word("log")?;
            line.bytes(text.as_str().as_bytes())
        }
    }
}

fn show_breakpoint(
    alloc: Global,
    runner: &Runner,
    spec: &BreakSpec,
    line: &mut Line,
) -> Result<(), Fault> {
    let place = format!(in alloc; "{}:{}:{}", spec.id, spec.address, spec.hit)?;
    match &spec.condition {
        None => line.word(place.as_str()),
        Some(condition) => match condition.value(runner.hart(), runner.memory()) {
            Ok(value) => line.value(format!(in alloc; "{place}:{value}")?),
            Err(_) => line.value(format!(in alloc; "{place}:Outside")?),
        },
    }
}

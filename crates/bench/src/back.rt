//! The time of a run back over all moves that are recorded.

use crate::debugged::LIMIT;
use std::io;
use std::time::{Duration, Instant};
use stepping::{Goal, Outcome, Ran, Reason, RunEnd, Runner, Tick};

/// How many moves are recorded at most.
const RECORDED: u32 = 65_536;

/// Runs a program that was just loaded for as many moves as are recorded and back, `rounds` times, and answers the least time back, in
/// microseconds; `None`: a run has ended otherwise, or has not led back to the start, or there was none.
pub(crate) fn least_back(
    rt: &HostRuntime,
    runner: &mut Runner,
    rounds: u32,
) -> io::Result<Option<u64>> {
    let mut least = None;
    for _ in 0..rounds {
        let Some(taken) = there_and_back(rt, runner)? else {
            return Ok(None);
        };
        least = Some(match least {
            Some(least) => taken.min(least),
            None => taken,
        });
    }
    Ok(least)
}

fn there_and_back(rt: &HostRuntime, runner: &mut Runner) -> io::Result<Option<u64>> {
    let start = *runner.hart();
    if runner.retired() > LIMIT {
        return Ok(None);
    }
    runner.begin(Goal::Go, false);
    if !matches!(runner.run(RECORDED).ending, RunEnd::Spent) {
        return Ok(None);
    }
    runner.begin(Goal::ReverseGo, false);
    let from = Instant::now(rt)?;
    let ran = runner.run(RECORDED);
    let taken = from.elapsed(rt)?;
    if is_at_start(ran) && is_as_loaded(runner) && *runner.hart() == start {
        Ok(Some(micros(taken)))
    } else {
        Ok(None)
    }
}

// Whether a run has gone back as far as it could.
fn is_at_start(ran: Ran) -> bool {
    matches!(
        ran.ending,
        RunEnd::Ticked(Tick {
            printed: None,
            outcome: Outcome::Stopped(Reason::Start),
        })
    )
}

// Whether no instruction counts, and no call is open.
fn is_as_loaded(runner: &Runner) -> bool {
    runner.retired() == 0 && runner.calls().depth() == 0
}

fn micros(time: Duration) -> u64 {
    let whole = time.as_secs().saturating_mul(1_000_000);
    whole.saturating_add(u64::from(time.subsec_micros()))
}

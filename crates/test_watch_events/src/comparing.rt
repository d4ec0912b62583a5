//! What is known, held against what could be seen.

use facts::{BreakInfo, FrameInfo, RunState};
use mirror::Mirror;
use session::Snapshot;
use std::alloc::Global;
use testing::{Fault, shown};
use watch_events::Watched;

/// The path of each program.
pub(crate) const PATH: &[u8] = b"/w/p.s";

/// Places that are looked at: of lists, frames and registers, and addresses of memory.
pub(crate) const PLACES: u32 = 40;

pub(crate) const FIRST_ADDRESS: u32 = 65_528;

pub(crate) const LAST_ADDRESS: u32 = 69_640;

/// How many facts are known, or the first kind with one that was not so.
pub(crate) fn compared(alloc: Global, watched: &Watched) -> Result<String, Fault> {
    match compare(&watched.mirror, watched.snapshot.as_ref()) {
        Ok(count) => shown(alloc, count),
        Err(kind) => Ok(format!(in alloc; "{kind} was not so")?),
    }
}

fn compare(mirror: &Mirror, seen: Option<&Snapshot>) -> Result<u32, &'static str> {
    let mut count = is_so_of_run(mirror.run(), seen.map(Snapshot::run))?;
    for place in 0..PLACES {
        let index = place as usize;
        count = count.saturating_add(is_so_of_break(
            mirror.source_break(PATH, index),
            seen.and_then(|s| s.source_break(PATH, index)),
        )?);
        count = count.saturating_add(is_so_of_break(
            mirror.instruction_break(index),
            seen.and_then(|s| s.instruction_break(index)),
        )?);
        count = count.saturating_add(is_so_of_break(
            mirror.function_break(index),
            seen.and_then(|s| s.function_break(index)),
        )?);
        count = count.saturating_add(is_so_of_frame(
            mirror.frame(place),
            seen.and_then(|s| s.frame(place)),
        )?);
        count = count.saturating_add(is_so_of_number(
            mirror.register(place),
            seen.and_then(|s| s.register(place)),
        )?);
    }
    for address in FIRST_ADDRESS..LAST_ADDRESS {
        count = count.saturating_add(is_so_of_number(
            mirror.byte(address).map(u32::from),
            seen.and_then(|s| s.byte(address)).map(u32::from),
        )?);
    }
    Ok(count)
}

// An end is known without its code too.
fn is_so_of_run(known: RunState, seen: Option<RunState>) -> Result<u32, &'static str> {
    match (known, seen) {
        (RunState::Unknown, _) => Ok(0),
        (RunState::Ended(None), Some(RunState::Ended(_))) => Ok(1),
        (known, Some(seen)) if known == seen => Ok(1),
        _ => Err("run"),
    }
}

fn is_so_of_break(known: Option<BreakInfo>, seen: Option<BreakInfo>) -> Result<u32, &'static str> {
    match known {
        None => Ok(0),
        Some(_) if known == seen => Ok(1),
        Some(_) => Err("breakpoint"),
    }
}

fn is_so_of_frame(
    known: Option<&FrameInfo>,
    seen: Option<&FrameInfo>,
) -> Result<u32, &'static str> {
    match (known, seen) {
        (None, _) => Ok(0),
        (Some(a), Some(b))
            if a.id == b.id && a.address == b.address && a.name.as_str() == b.name.as_str() => Ok(
            1,
        ),
        _ => Err("frame"),
    }
}

fn is_so_of_number(known: Option<u32>, seen: Option<u32>) -> Result<u32, &'static str> {
    match known {
        None => Ok(0),
        Some(_) if known == seen => Ok(1),
        Some(_) => Err("register or byte"),
    }
}

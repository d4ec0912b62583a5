//! Lists of breakpoints.
//!
//! A breakpoint is `ID:ADDRESS:HIT`, `ID:ADDRESS:HIT:BYTES` with the text of its condition, or `ID:ADDRESS:HIT:BYTES:BYTES` with that, which may
//! be empty for none, and the text of a logpoint.
ghost use Rattle.std.specs.Prelude.{◌≤◌, All, IfOk, IsTrue};
ghost use Rattle.breakpoints.specs.Stops.{CanBeSet};

use breakpoints::{BreakSpec, Expr, ExprError, LogText};
use std::alloc::{AllocError, Global};
use std::str;
use testing::{Fault, bytes_of, parsed};

/// The breakpoints that arguments say. No list may have more than 1,024, and none stops before its first hit.
pub(crate) fn list_of(alloc: Global, arguments: &[&str]) -> Result<Vec<BreakSpec>, Fault>
    ensures { IfOk result (λ list. CanBeSet list.items) }
{
    let mut list = Vec::new(alloc);
    for argument in arguments {
        let breakpoint = breakpoint_of(alloc, argument)?;
        list.push(breakpoint).map_err(AllocError::from)?;
    }
    if can_be_set(&list) {
        Ok(list)
    } else {
        Err(Fault::NoCommand)
    }
}

fn breakpoint_of(alloc: Global, argument: &str) -> Result<BreakSpec, Fault> {
    let parts: Vec<&str> = argument.split(':').collect(alloc)?;
    match parts.as_slice() {
        [id, address, hit] => Ok(BreakSpec {
            id: parsed(id)?,
            address: parsed(address)?,
            condition: None,
            hit: parsed(hit)?,
            log: None,
        }),
        [id, address, hit, condition] => Ok(BreakSpec {
            id: parsed(id)?,
            address: parsed(address)?,
            condition: condition_of(alloc, condition)?,
            hit: parsed(hit)?,
            log: None,
        }),
        [id, address, hit, condition, text] => Ok(BreakSpec {
            id: parsed(id)?,
            address: parsed(address)?,
            condition: condition_of(alloc, condition)?,
            hit: parsed(hit)?,
            log: Some(log_of(alloc, text)?),
        }),
        _ => Err(Fault::NoCommand),
    }
}

// None where there are no bytes.
fn condition_of(alloc: Global, bytes: &str) -> Result<Option<Expr>, Fault> {
    if bytes.is_empty() {
        return Ok(None);
    }
    let bytes = bytes_of(alloc, bytes)?;
    let text = str::from_utf8(&bytes).map_err(|_| Fault::NoCommand)?;
    match Expr::parse(alloc, text) {
        Ok(condition) => Ok(Some(condition)),
        Err(ExprError::NoMemory) => Err(Fault::NoMemoryInCall),
        Err(_) => Err(Fault::NoCommand),
    }
}

fn log_of(alloc: Global, bytes: &str) -> Result<LogText, Fault> {
    let bytes = bytes_of(alloc, bytes)?;
    let text = str::from_utf8(&bytes).map_err(|_| Fault::NoCommand)?;
    Ok(LogText::new(String::from_str(alloc, text)?))
}

fn can_be_set(list: &[BreakSpec]) -> bool
    ensures { IsTrue result → CanBeSet list.now }
{
    list.len() <= 1024 && are_reachable(list)
}

fn are_reachable(list: &[BreakSpec]) -> bool
    ensures { IsTrue result → All (λ spec. 1 ≤ spec.hit) list.now }
{
    list.iter().all(|spec| spec.hit >= 1)
}

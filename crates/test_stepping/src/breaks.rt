//! A list of breakpoints as arguments: none, or an id, an address, a hit number and perhaps a condition without blanks, or `log` and the text of a
//! logpoint without blanks.

ghost use Rattle.std.specs.Prelude.{IfOk};
ghost use Rattle.breakpoints.specs.Stops.{CanBeSet};

use breakpoints::{BreakSpec, Expr, ExprError, LogText};
use std::alloc::Global;
use testing::{Fault, parsed};

/// The list that arguments give.
pub(crate) fn list_of(alloc: Global, arguments: &[&str]) -> Result<Vec<BreakSpec>, Fault>
    ensures { IfOk result (λ specs. CanBeSet specs.items) }
{
    match arguments {
        [] => Ok(Vec::new(alloc)),
        [id, address, hit] => one(
            alloc,
            parsed(id)?,
            parsed(address)?,
            parsed(hit)?,
            None,
            None,
        ),
        [id, address, hit, "log", text] => {
            let text = LogText::new(String::from_str(alloc, text)?);
            one(
                alloc,
                parsed(id)?,
                parsed(address)?,
                parsed(hit)?,
                None,
                Some(text),
            )
        }
        [id, address, hit, condition] => {
            let condition = condition_of(alloc, condition)?;
            one(
                alloc,
                parsed(id)?,
                parsed(address)?,
                parsed(hit)?,
                Some(condition),
                None,
            )
        }
        _ => Err(Fault::NoCommand),
    }
}

fn one(
    alloc: Global,
    id: u32,
    address: u32,
    hit: u32,
    condition: Option<Expr>,
    log: Option<LogText>,
) -> Result<Vec<BreakSpec>, Fault>
    ensures { IfOk result (λ specs. CanBeSet specs.items) }
{
    if hit == 0 {
        return Err(Fault::NoCommand);
    }
    let mut specs = Vec::new(alloc);
    let pushed = specs.push(BreakSpec {
        id,
        address,
        condition,
        hit,
        log,
    });
    match pushed {
        Ok(()) => Ok(specs),
        Err(_) => Err(Fault::NoMemory),
    }
}

fn condition_of(alloc: Global, text: &str) -> Result<Expr, Fault> {
    match Expr::parse(alloc, text) {
        Ok(condition) => Ok(condition),
        Err(ExprError::NoMemory) => Err(Fault::NoMemoryInCall),
        Err(_) => Err(Fault::NoCommand),
    }
}

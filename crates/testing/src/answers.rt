//! Answers that may be missing, answers of two values, and those of calls that are not made again.
ghost use Rattle.std.specs.Prelude.{◌≡◌, None, IfOk, codes, string_bytes};

use crate::{Fault, shown};
use std::alloc::Global;
use std::fmt::Display;

/// The answer that a value is, or `none`.
pub fn found<D: Display + Drop>(alloc: Global, value: Option<D>) -> Result<String, Fault>
    ensures { value ≡ None → IfOk result (λ text. string_bytes text ≡ codes "none") }
{
    let Some(value) = value else {
        return none(alloc);
    };
    shown(alloc, value)
}

/// The answer that two values are, or `none`.
pub fn pair<D: Display + Drop, E: Display + Drop>(
    alloc: Global,
    values: Option<(D, E)>,
) -> Result<String, Fault>
    ensures { values ≡ None → IfOk result (λ text. string_bytes text ≡ codes "none") }
{
    match values {
        Some((first, second)) => Ok(format!(in alloc; "{first} {second}")?),
        None => none(alloc),
    }
}

/// The answer `none`.
pub fn none(alloc: Global) -> Result<String, Fault>
    ensures { IfOk result (λ text. string_bytes text ≡ codes "none") }
{
    Ok("none".to_string(alloc)?)
}

/// The answer of a call that is not made again where it found no memory: it is `NoMemory` then.
pub fn once(alloc: Global, answer: Result<String, Fault>) -> Result<String, Fault> {
    match answer {
        Err(Fault::NoMemoryInCall) => shown(alloc, "NoMemory"),
        answer => answer,
    }
}

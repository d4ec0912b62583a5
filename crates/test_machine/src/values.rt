//! The value of an expression, on a hart and its memory.

use breakpoints::{Expr, ExprError};
use image::Memory;
use rv32i::Hart;
use std::alloc::Global;
use std::str;
use testing::{Fault, bytes_of};

/// The value of the expression that these bytes are, or the name of its error or fault.
pub(crate) fn value_of(
    alloc: Global,
    hart: &Hart,
    memory: &Memory,
    bytes: &str,
) -> Result<String, Fault> {
    let bytes = bytes_of(alloc, bytes)?;
    let text = str::from_utf8(&bytes).map_err(|_| Fault::NoCommand)?;
    match Expr::parse(alloc, text) {
        Ok(expression) => shown_value(alloc, hart, memory, &expression),
        Err(ExprError::NoMemory) => Err(Fault::NoMemoryInCall),
        Err(error) => Ok(format!(in alloc; "{error:?}")?),
    }
}

fn shown_value(
    alloc: Global,
    hart: &Hart,
    memory: &Memory,
    expression: &Expr,
) -> Result<String, Fault> {
    match expression.value(hart, memory) {
        Ok(value) => Ok(format!(in alloc; "0x{value:08x}")?),
        Err(fault) => Ok(format!(in alloc; "{fault:?}")?),
    }
}

//! The names of registers.
//!
//! - `name NUMBER`: the name.
//! - `of BYTES`: the number of the register that these bytes name, or `none`.

use rv32i::{reg_name, reg_of};
use std::alloc::Global;
use std::str;
use testing::{Fault, bytes_of, found, parsed, shown};

/// What is answered of a register.
pub(crate) fn answer_register(alloc: Global, arguments: &[&str]) -> Result<String, Fault> {
    match arguments {
        ["name", number] => named(alloc, number),
        ["of", bytes] => {
            let bytes = bytes_of(alloc, bytes)?;
            let name = str::from_utf8(&bytes).map_err(|_| Fault::NoCommand)?;
            found(alloc, reg_of(name))
        }
        _ => Err(Fault::NoCommand),
    }
}

fn named(alloc: Global, number: &str) -> Result<String, Fault> {
    let number: u32 = parsed(number)?;
    if number < 32 {
        shown(alloc, reg_name(number))
    } else {
        Err(Fault::NoCommand)
    }
}

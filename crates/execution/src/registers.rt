//! The registers of a hart, told.

ghost use Rattle.std.specs.Prelude.{◌≡◌, ◌<◌, ◌++◌, IfOk, OnOk, string_bytes};
ghost use Rattle.execution.specs.Registers as spec;

use crate::fault_words::address_text;
use rv32i::{Hart, reg_name};
use std::alloc::{AllocError, Global};

// How many registers there are.
const REGISTERS: u32 = 32;

/// pc and the registers of a hart, from `zero` to `t6`: of each a line with its name, its value in eight hexadecimal digits, and that as a
/// signed number, as `a0 0xffffffff -1`. `Err`: no memory was left.
pub fn registers_text(alloc: Global, hart: &Hart) -> Result<String, AllocError>
    ensures { IfOk result (λ told. string_bytes told ≡ spec.registers_text hart.now) }
{
    let mut told = String::new(alloc);
    push_register(alloc, &mut told, "pc", hart.pc)?;
    for number in 0..REGISTERS {
        push_register(alloc, &mut told, reg_name(number), hart.x[number as usize])?;
    }
    Ok(told)
}

// A register's line.
fn push_register(alloc: Global, told: &mut String, name: &str, value: u32) -> Result<(), AllocError>
    ensures { OnOk result (string_bytes told.new
        ≡ string_bytes told.old ++ spec.register_line name.now value) }
{
    let value = value_text(alloc, value)?;
    told.push_str(name)?;
    told.push_str(value.as_str())?;
    told.push('\n')
}

/// A value after a blank, in hexadecimal and as a signed number.
#[tactic(auto, unfolding(crate::specs::Registers::value_text))]
pub(crate) fn value_text(alloc: Global, value: u32) -> Result<String, AllocError>
    ensures { IfOk result (λ text. string_bytes text ≡ spec.value_text value) }
{
    let (digits, number) = (address_text(alloc, value)?, value.cast_signed());
    format!(in alloc; " {digits} {number}")
}

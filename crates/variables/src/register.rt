//! The registers as variables.

ghost use Rattle.std.specs.Prelude.{◌≡◌, ◌<◌, IfOk, slice_index};
ghost use Rattle.variables.specs.Registers.{counter, name_answer, register, registers, registers_after, set_answer};

use crate::value::value_of;
use protocol::{Refusal, Text};
use replies::Variable;
use rv32i::{Hart, reg_name, reg_named};
use std::alloc::{AllocError, Global};

/// How many registers there are.
const REGISTERS: u32 = 32;

/// The name of the program counter.
const COUNTER: &str = "pc";

/// The registers x0 to x31 under their names, and then `pc`. It fails where no memory is left.
pub fn registers(alloc: Global, hart: &Hart) -> Result<Vec<Variable>, AllocError>
    ensures { IfOk result (λ variables. variables.items ≡ registers hart.now) }
{
    let mut variables = Vec::with_capacity(alloc, 33)?;
    for number in 0..REGISTERS {
        variables.push(variable(alloc, reg_name(number), hart.x[number as usize])?)?;
    }
    variables.push(variable(alloc, COUNTER, hart.pc)?)?;
    Ok(variables)
}

/// Sets a register to the word that a text writes, and answers that word. The register is named as in the list of `registers`; the text is
/// `0x` and 1 to 8 hexadecimal digits, or a decimal number from -2,147,483,648 to 4,294,967,295.
///
/// `UnknownName`: the list has no variable of that name; else `NotWritable`: it is `zero` or `pc`; else `BadValue`: the text writes no
/// word. A refusal changes nothing. It takes no memory.
pub fn set_register(hart: &mut Hart, name: &str, value: &str) -> Result<u32, Refusal>
    ensures answer { result ≡ set_answer name.now value.now }
    ensures x { hart.new.x ≡ registers_after name.now value.now hart.old.x }
    ensures pc { hart.new.pc ≡ hart.old.pc }
{
    let number = named(name)?;
    match value_of(value.as_bytes()) {
        None => Err(Refusal::BadValue),
        Some(value) => {
            hart.x[number] = value;
            Ok(value)
        }
    }
}

// The number of the register that can be set under a name.
fn named(name: &str) -> Result<usize, Refusal>
    ensures number { result ≡ name_answer name.now }
    ensures some { IfOk result (λ number. 0 < number) }
    ensures small { IfOk result (λ number. number < 32) }
{
    if name == COUNTER {
        return Err(Refusal::NotWritable);
    }
    match reg_named(name.as_bytes()) {
        None => Err(Refusal::UnknownName),
        Some(0) => Err(Refusal::NotWritable),
        Some(number) => Ok(number as usize),
    }
}

/// A variable of this name and value. It fails where no memory is left.
pub(crate) fn variable(alloc: Global, name: &str, value: u32) -> Result<Variable, AllocError>
    ensures { IfOk result (λ variable. variable ≡ record { name = name.now; value = value }) }
{
    Ok(Variable {
        name: Text::from_string(String::from_str(alloc, name)?),
        value,
    })
}

//! The values of registers.
ghost use Rattle.std.specs.Prelude.{◌≡◌, ◌≤◌, IfSome};
ghost use Rattle.mirror.specs.Folding.{after_variables, valued};
ghost use Rattle.mirror.specs.Kept.{register_in};
ghost use Rattle.mirror.specs.Requests.{register_of};

use replies::Variable;
use rv32i::reg_named;
use std::marker::Model;

/// How many registers there are, with pc.
const PLACES: usize = 33;

/// The number of pc.
const COUNTER: u32 = 32;

/// The values of the registers that were told. A contract sees them as a list by number, pc at 32.
#[derive(Drop)]
pub(crate) struct Registers {
    values: [Option<u32>; PLACES],
}

impl Model for Registers {
    ghost use Rattle.std.specs.Prelude.{List, ℕ, Option};

    ghost Value = { List (Option ℕ) };

    ghost view = { λ r. r.values };
}

impl Registers {
    ghost use Rattle.facts.specs.Facts.{unknown};

    /// None was told.
    pub(crate) fn new() -> Registers
        ensures { register_in result ≡ unknown }
    {
        Registers {
            values: [None; PLACES],
        }
    }

    /// The value of a register. `None`: it was not told, or there is no register of that number.
    pub(crate) fn get(&self, number: u32) -> Option<u32>
        ensures { result ≡ register_in self.now number }
    {
        match self.values.get(number as usize) {
            Some(value) => *value,
            None => None,
        }
    }

    /// A copy of these values.
    pub(crate) fn copied(&self) -> Registers
        ensures { result ≡ self.now }
    {
        Registers {
            values: self.values,
        }
    }

    /// A register has a value, if one is named.
    pub(crate) fn set(&mut self, number: Option<u32>, value: u32)
        requires { IfSome number (λ n. n ≤ 32) }
        ensures { register_in self.new ≡ valued number value (register_in self.old) }
    {
        if let Some(number) = number {
            self.values[number as usize] = Some(value);
        }
    }

    /// The values of variables that have a register's name.
    pub(crate) fn tell(&mut self, variables: &[Variable])
        ensures { register_in self.new ≡ after_variables (register_in self.old) variables.now }
    {
        for variable in variables {
            self.set(
                register_of(variable.name.as_str().as_bytes()),
                variable.value,
            );
        }
    }
}

/// The number of the register that has a name: `zero`, `ra` and on to `t6` are 0 to 31, and `pc` is 32.
pub(crate) fn register_of(name: &[u8]) -> Option<u32>
    ensures number { result ≡ register_of name.now }
    ensures small { IfSome result (λ number. number ≤ 32) }
{
    if name == b"pc".as_slice() {
        return Some(COUNTER);
    }
    reg_named(name)
}

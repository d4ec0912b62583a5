//! The variables of scopes.
//!
//! - `registers`, `stack`: those of a scope, each as `NAME=VALUE`.
//! - `register NAME VALUE`: sets the register of a name to the value that a text writes, both given as their bytes.

use crate::program::Program;
use replies::Variable;
use std::alloc::Global;
use std::str;
use testing::{Fault, Line, bytes_of, called};
use variables::{registers, set_register, stack_words};

impl Program {
    /// What is answered of variables.
    pub(crate) fn answer_variables(
        &mut self,
        alloc: Global,
        arguments: &[&str],
        line: &mut Line,
    ) -> Result<(), Fault> {
        match arguments {
            ["registers"] => {
                let variables = called(registers(alloc, self.runner.hart()))?;
                show_variables(alloc, variables, line)
            }
            ["stack"] => {
                let (hart, memory) = (self.runner.hart(), self.runner.memory());
                show_variables(alloc, called(stack_words(alloc, hart, memory))?, line)
            }
            ["register", name, value] => self.set_named(alloc, name, value, line),
            arguments => self.answer_number(alloc, arguments, line),
        }
    }

    fn set_named(
        &mut self,
        alloc: Global,
        name: &str,
        value: &str,
        line: &mut Line,
    ) -> Result<(), Fault> {
        let name = bytes_of(alloc, name)?;
        let value = bytes_of(alloc, value)?;
        let name = str::from_utf8(&name).map_err(|_| Fault::NoCommand)?;
        let value = str::from_utf8(&value).map_err(|_| Fault::NoCommand)?;
        let mut hart = *self.runner.hart();
        match set_register(&mut hart, name, value) {
            Ok(word) => {
                self.runner.set_hart(hart);
                line.value(format!(in alloc; "0x{word:08x}")?)
            }
            Err(refusal) => line.name(refusal),
        }
    }
}

fn show_variables(alloc: Global, variables: Vec<Variable>, line: &mut Line) -> Result<(), Fault> {
    line.word("variables")?;
    for variable in variables {
        let name = variable.name.as_str();
        let value = variable.value;
        line.value(format!(in alloc; "{name}=0x{value:08x}")?)?;
    }
    Ok(())
}

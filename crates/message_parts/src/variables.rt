//! The body that answers `variables`: names and their values.

use crate::members::{NAME, VALUE, VARIABLES, VARIABLES_REFERENCE};
use crate::part::Part;
use crate::{find, member};
use json::Writer;
use protocol::{Entries, Text, Unread};
use serde_json::Value;
use std::alloc::{AllocError, Global};

/// Variables (`VariablesResponse`).
#[derive(Drop)]
pub struct Variables {
    /// The variables.
    pub variables: Entries<Variable>,
}

/// A variable: a register, or a word of the stack (`Variable`).
#[derive(Drop)]
pub struct Variable {
    /// Its name.
    pub name: Text,
    /// Its value.
    pub value: u32,
}

impl Part for Variables {
    ghost use Rattle.message_parts.specs.Variables.{variables};

    ghost form = { variables };

    fn write(&self, out: &mut Writer) -> Result<(), AllocError> {
        out.begin_object()?;
        member::part(out, VARIABLES, &self.variables)?;
        out.end_object()
    }

    fn read(alloc: Global, value: &Value) -> Result<Variables, Unread> {
        Ok(Variables {
            variables: find::part(alloc, value, VARIABLES)?,
        })
    }
}

impl Part for Variable {
    ghost use Rattle.message_parts.specs.Variables.{variable};

    ghost form = { variable };

    fn write(&self, out: &mut Writer) -> Result<(), AllocError> {
        out.begin_object()?;
        member::text(out, NAME, self.name.as_str())?;
        member::address(out, VALUE, self.value)?;
        member::number(out, VARIABLES_REFERENCE, 0)?;
        out.end_object()
    }

    fn read(alloc: Global, value: &Value) -> Result<Variable, Unread> {
        Ok(Variable {
            name: find::text(alloc, value, NAME)?,
            value: find::address(value, VALUE)?,
        })
    }
}

//! The body that answers `scopes`: the groups of variables of a frame.

use crate::members::{EXPENSIVE, NAME, PRESENTATION_HINT, SCOPES, VARIABLES_REFERENCE};
use crate::part::Part;
use crate::{find, member};
use json::Writer;
use protocol::{Entries, Unread};
use serde_json::Value;
use std::alloc::{AllocError, Global};

/// The groups of variables of a frame (`ScopesResponse`).
#[derive(Drop)]
pub struct Scopes {
    /// The groups.
    pub scopes: Entries<Scope>,
}

/// A group of variables (`Scope`).
#[derive(Drop)]
pub enum Scope {
    /// The registers of the hart.
    Registers {
        /// The number by which a request names the group.
        variables_reference: u32,
    },
    /// The words of the stack.
    Stack {
        /// The number by which a request names the group.
        variables_reference: u32,
    },
}

/// The name of the group of registers.
const REGISTERS: &str = "Registers";
/// The name of the group of words of the stack.
const STACK: &str = "Stack";
/// What an editor may show of the group of registers.
const REGISTERS_HINT: &str = "registers";

impl Part for Scopes {
    ghost use Rattle.message_parts.specs.Scopes.{scopes};

    ghost form = { scopes };

    fn write(&self, out: &mut Writer) -> Result<(), AllocError> {
        out.begin_object()?;
        member::part(out, SCOPES, &self.scopes)?;
        out.end_object()
    }

    fn read(alloc: Global, value: &Value) -> Result<Scopes, Unread> {
        Ok(Scopes {
            scopes: find::part(alloc, value, SCOPES)?,
        })
    }
}

impl Part for Scope {
    ghost use Rattle.message_parts.specs.Scopes.{scope};

    ghost form = { scope };

    fn write(&self, out: &mut Writer) -> Result<(), AllocError> {
        match self {
            Scope::Registers {
                variables_reference,
            } => {
                out.begin_object()?;
                member::truth(out, EXPENSIVE, false)?;
                member::text(out, NAME, REGISTERS)?;
                member::text(out, PRESENTATION_HINT, REGISTERS_HINT)?;
                member::number(out, VARIABLES_REFERENCE, *variables_reference)?;
                out.end_object()
            }
            Scope::Stack {
                variables_reference,
            } => {
                out.begin_object()?;
                member::truth(out, EXPENSIVE, false)?;
                member::text(out, NAME, STACK)?;
                member::number(out, VARIABLES_REFERENCE, *variables_reference)?;
                out.end_object()
            }
        }
    }

    fn read(_alloc: Global, value: &Value) -> Result<Scope, Unread> {
        let name = value.get(NAME).and_then(Value::as_str).ok_or(Unread::Bad)?;
        let variables_reference = find::number(value, VARIABLES_REFERENCE)?;
        if name == REGISTERS {
            Ok(Scope::Registers {
                variables_reference,
            })
        } else {
            Ok(Scope::Stack {
                variables_reference,
            })
        }
    }
}

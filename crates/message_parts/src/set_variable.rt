//! The body that answers `setVariable`: the value that the variable has now.

use crate::members::VALUE;
use crate::part::Part;
use crate::{find, member};
use json::Writer;
use protocol::Unread;
use serde_json::Value;
use std::alloc::{AllocError, Global};

/// What became of a variable that was set (`SetVariableResponse`).
#[derive(Drop)]
pub struct SetVariable {
    /// The value that it has now.
    pub value: u32,
}

impl Part for SetVariable {
    ghost use Rattle.message_parts.specs.SetVariable.{set_variable};

    ghost form = { set_variable };

    fn write(&self, out: &mut Writer) -> Result<(), AllocError> {
        out.begin_object()?;
        member::address(out, VALUE, self.value)?;
        out.end_object()
    }

    fn read(_alloc: Global, value: &Value) -> Result<SetVariable, Unread> {
        Ok(SetVariable {
            value: find::address(value, VALUE)?,
        })
    }
}

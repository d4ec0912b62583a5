//! The body that answers `evaluate`: the value of the expression.

use crate::members::{RESULT, VARIABLES_REFERENCE};
use crate::part::Part;
use crate::{find, member};
use json::Writer;
use protocol::Unread;
use serde_json::Value;
use std::alloc::{AllocError, Global};

/// The value of an expression (`EvaluateResponse`).
#[derive(Drop)]
pub struct Evaluate {
    /// The value.
    pub result: u32,
}

impl Part for Evaluate {
    ghost use Rattle.message_parts.specs.Evaluate.{evaluate};

    ghost form = { evaluate };

    fn write(&self, out: &mut Writer) -> Result<(), AllocError> {
        out.begin_object()?;
        member::address(out, RESULT, self.result)?;
        member::number(out, VARIABLES_REFERENCE, 0)?;
        out.end_object()
    }

    fn read(_alloc: Global, value: &Value) -> Result<Evaluate, Unread> {
        Ok(Evaluate {
            result: find::address(value, RESULT)?,
        })
    }
}

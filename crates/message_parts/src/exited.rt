//! The body of the event `exited`: the program's exit code.

use crate::members::EXIT_CODE;
use crate::part::Part;
use crate::{find, member};
use json::Writer;
use protocol::Unread;
use serde_json::Value;
use std::alloc::{AllocError, Global};

/// That the program exited (`ExitedEvent`).
#[derive(Drop)]
pub struct Exited {
    /// Its exit code.
    pub exit_code: i32,
}

impl Part for Exited {
    ghost use Rattle.message_parts.specs.Exited.{exited};

    ghost form = { exited };

    fn write(&self, out: &mut Writer) -> Result<(), AllocError> {
        out.begin_object()?;
        member::signed(out, EXIT_CODE, self.exit_code)?;
        out.end_object()
    }

    fn read(_alloc: Global, value: &Value) -> Result<Exited, Unread> {
        Ok(Exited {
            exit_code: find::signed(value, EXIT_CODE)?,
        })
    }
}

//! The request `evaluate`: the value of an expression.
ghost use Rattle.std.specs.Prelude.{◌≡◌, Err};
ghost use Rattle.serde_json.specs.View.{members_view};
ghost use Rattle.protocol.specs.Arguments.{IsText, MayTakeMemory, Reads};
ghost use Rattle.protocol.specs.Properties.{property};
ghost use Rattle.protocol.specs.Evaluate.{evaluate_arguments};

use crate::Text;
use crate::argument::{optional, required};
use crate::members::FRAME_ID;
use crate::unread::Unread;
use serde_json::{Map, Value};
use std::alloc::Global;

/// The request's name.
pub const NAME: &str = "evaluate";

/// The expression (`EvaluateArguments.expression`).
pub const EXPRESSION: &str = "expression";

/// Which expression is asked for (`EvaluateArguments`).
#[derive(Drop)]
pub struct EvaluateArguments {
    /// The expression, as the editor writes it.
    pub expression: Text,
    /// The frame in which it is evaluated. A whole number from -2,147,483,648 to 2,147,483,647.
    pub frame_id: Option<i32>,
}

/// The arguments; `Bad` where `expression` is absent or no text, or `frameId` is there and is no
/// whole number from -2,147,483,648 to 2,147,483,647.
pub(crate) fn arguments(
    alloc: Global,
    members: &Map<String, Value>,
) -> Result<EvaluateArguments, Unread>
    ensures reads { Reads result (evaluate_arguments (members_view members.now.entries)) }
    ensures memory { result ≡ Err Unread.NoMemory → MayTakeMemory IsText
        (property EXPRESSION.now (members_view members.now.entries)) }
{
    Ok(EvaluateArguments {
        expression: required(alloc, members, EXPRESSION)?,
        frame_id: optional(alloc, members, FRAME_ID)?,
    })
}

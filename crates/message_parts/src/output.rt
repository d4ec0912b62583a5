//! The body of the event `output`: a text that the editor shows.
ghost use Rattle.std.specs.Prelude.{◌≡◌};
ghost use Rattle.protocol.specs.Arguments.{Reads};
ghost use Rattle.message_parts.specs.Forms.{first_named};
ghost use Rattle.message_parts.specs.Output.{categories, category_name};

use crate::members::{CATEGORY, OUTPUT};
use crate::part::Part;
use crate::{find, member};
use json::Writer;
use protocol::{Text, Unread};
use serde_json::Value;
use std::alloc::{AllocError, Global};

/// A text that the editor shows (`OutputEvent`).
#[derive(Drop)]
pub struct Output {
    /// Whose output it is.
    pub category: Category,
    /// The text.
    pub output: Text,
}

/// Whose output it is (`OutputEvent.body.category`).
#[derive(Clone, Copy, Debug, PartialEq, Eq)]
pub enum Category {
    /// What the adapter has to say, as a logpoint's text.
    Console,
    /// What the program printed.
    Stdout,
}

const CONSOLE: &str = "console";

const STDOUT: &str = "stdout";

impl Category {
    /// Its name in a message.
    pub fn name(self) -> &'static str
        ensures { result.now ≡ category_name self }
    {
        match self {
            Category::Console => CONSOLE,
            Category::Stdout => STDOUT,
        }
    }
}

/// The category of that name; `Bad` where there is none.
fn named(name: &str) -> Result<Category, Unread>
    ensures { Reads result (first_named category_name categories name.now) }
{
    match name {
        CONSOLE => Ok(Category::Console),
        STDOUT => Ok(Category::Stdout),
        _ => Err(Unread::Bad),
    }
}

impl Part for Category {
    ghost use Rattle.message_parts.specs.Output.{category};

    ghost form = { category };

    fn write(&self, out: &mut Writer) -> Result<(), AllocError> {
        out.string(self.name())
    }

    fn read(_alloc: Global, value: &Value) -> Result<Category, Unread> {
        named(value.as_str().ok_or(Unread::Bad)?)
    }
}

impl Part for Output {
    ghost use Rattle.message_parts.specs.Output.{output};

    ghost form = { output };

    fn write(&self, out: &mut Writer) -> Result<(), AllocError> {
        out.begin_object()?;
        member::part(out, CATEGORY, &self.category)?;
        member::text(out, OUTPUT, self.output.as_str())?;
        out.end_object()
    }

    fn read(alloc: Global, value: &Value) -> Result<Output, Unread> {
        Ok(Output {
            category: find::part(alloc, value, CATEGORY)?,
            output: find::text(alloc, value, OUTPUT)?,
        })
    }
}

//! The body of the event `stopped`: why the machine stopped.
ghost use Rattle.std.specs.Prelude.{◌≡◌};
ghost use Rattle.protocol.specs.Arguments.{Reads};
ghost use Rattle.message_parts.specs.Forms.{first_named};
ghost use Rattle.message_parts.specs.Stopped.{reason_name, reasons};

use crate::members::{ALL_THREADS_STOPPED, HIT_BREAKPOINT_IDS, REASON, TEXT, THREAD_ID};
use crate::part::Part;
use crate::{find, member};
use json::Writer;
use protocol::{Entries, Text, Unread};
use serde_json::Value;
use std::alloc::{AllocError, Global};

/// A stop of the machine (`StoppedEvent`).
#[derive(Drop)]
pub struct Stopped {
    /// The numbers of the breakpoints that stopped it. The member is absent where there are none.
    pub hit_breakpoint_ids: Entries<u32>,
    /// Why it stopped.
    pub reason: Reason,
    /// What more is to say of the reason. Absent: nothing.
    pub text: Option<Text>,
}

/// Why the machine stopped (`StoppedEvent.body.reason`).
#[derive(Clone, Copy, Debug, PartialEq, Eq)]
pub enum Reason {
    /// The program is loaded, and was to stop at its entry.
    Entry,
    /// A step has come to its end.
    Step,
    /// A breakpoint of a source, or an instruction that is one.
    Breakpoint,
    /// A breakpoint at an instruction.
    InstructionBreakpoint,
    /// A breakpoint at a function.
    FunctionBreakpoint,
    /// An instruction failed, or a limit is reached.
    Exception,
    /// It was told to.
    Pause,
}

const ENTRY: &str = "entry";

const STEP: &str = "step";

const BREAKPOINT: &str = "breakpoint";

const INSTRUCTION_BREAKPOINT: &str = "instruction breakpoint";

const FUNCTION_BREAKPOINT: &str = "function breakpoint";

const EXCEPTION: &str = "exception";

const PAUSE: &str = "pause";

impl Reason {
    /// Its name in a message.
    pub fn name(self) -> &'static str
        ensures { result.now ≡ reason_name self }
    {
        match self {
            Reason::Entry => ENTRY,
            Reason::Step => STEP,
            Reason::Breakpoint => BREAKPOINT,
            Reason::InstructionBreakpoint => INSTRUCTION_BREAKPOINT,
            Reason::FunctionBreakpoint => FUNCTION_BREAKPOINT,
            Reason::Exception => EXCEPTION,
            Reason::Pause => PAUSE,
        }
    }
}

/// The reason of that name; `Bad` where there is none.
fn named(name: &str) -> Result<Reason, Unread>
    ensures { Reads result (first_named reason_name reasons name.now) }
{
    match name {
        ENTRY => Ok(Reason::Entry),
        STEP => Ok(Reason::Step),
        BREAKPOINT => Ok(Reason::Breakpoint),
        INSTRUCTION_BREAKPOINT => Ok(Reason::InstructionBreakpoint),
        FUNCTION_BREAKPOINT => Ok(Reason::FunctionBreakpoint),
        EXCEPTION => Ok(Reason::Exception),
        PAUSE => Ok(Reason::Pause),
        _ => Err(Unread::Bad),
    }
}

impl Part for Reason {
    ghost use Rattle.message_parts.specs.Stopped.{reason};

    ghost form = { reason };

    fn write(&self, out: &mut Writer) -> Result<(), AllocError> {
        out.string(self.name())
    }

    fn read(_alloc: Global, value: &Value) -> Result<Reason, Unread> {
        named(value.as_str().ok_or(Unread::Bad)?)
    }
}

impl Part for Stopped {
    ghost use Rattle.message_parts.specs.Stopped.{stopped};

    ghost form = { stopped };

    fn write(&self, out: &mut Writer) -> Result<(), AllocError> {
        out.begin_object()?;
        member::truth(out, ALL_THREADS_STOPPED, true)?;
        member::unless_empty(out, HIT_BREAKPOINT_IDS, &self.hit_breakpoint_ids)?;
        member::part(out, REASON, &self.reason)?;
        member::part_if(out, TEXT, &self.text)?;
        member::number(out, THREAD_ID, 1)?;
        out.end_object()
    }

    fn read(alloc: Global, value: &Value) -> Result<Stopped, Unread> {
        Ok(Stopped {
            hit_breakpoint_ids: find::unless_empty(alloc, value, HIT_BREAKPOINT_IDS)?,
            reason: find::part(alloc, value, REASON)?,
            text: find::part_if(alloc, value, TEXT)?,
        })
    }
}

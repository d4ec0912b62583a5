//! What was asked, by the numbers of the requests.
ghost use Rattle.std.specs.Prelude.{◌≡◌, IfOk, OnOk, OnErr, option_copied};
ghost use Rattle.mirror.specs.Kept.{at};
ghost use Rattle.mirror.specs.Requests.{asked_of, told_of};

use byte_strings::Bytes;
use numerals::address_in;
use protocol::{Command, SetBreakpointsArguments, WriteMemoryArguments};
use std::alloc::{AllocError, Global};
use std::collections::BTreeMap;
use std::marker::Model;

/// What a request would tell, once it succeeds.
#[derive(Drop)]
pub(crate) enum Asked {
    /// `continue`: the machine runs.
    Continue,
    /// `next`, `stepIn`, `stepOut`, `stepBack`, `reverseContinue`, `restart`: the machine runs.
    Resume,
    /// `configurationDone`: the machine runs, if it was launched.
    ConfigurationDone,
    /// `launch`.
    Launch,
    /// `terminate`.
    Terminate,
    /// `disconnect`.
    Disconnect,
    /// `setBreakpoints`, with the path of the source if it has one.
    SetBreakpoints(Option<Bytes>),
    /// `setFunctionBreakpoints`.
    SetFunctionBreakpoints,
    /// `setInstructionBreakpoints`.
    SetInstructionBreakpoints,
    /// `stackTrace`, from the frame of this index on.
    StackTrace(u32),
    /// `variables`.
    Variables,
    /// `setVariable`, with the name of the variable.
    SetVariable(Bytes),
    /// `readMemory`.
    ReadMemory,
    /// `writeMemory`, with the address if it names one, and the bytes.
    WriteMemory(Option<u32>, Bytes),
    /// A request whose success tells nothing.
    Other,
}

impl Asked {
    /// What a command asks. It fails where no memory is left.
    pub(crate) fn of(alloc: Global, command: &Command) -> Result<Asked, AllocError>
        ensures { IfOk result (λ asked. asked ≡ asked_of command.now) }
    {
        match command {
            Command::Initialize(_) => Ok(Asked::Other),
            Command::Launch(_) => Ok(Asked::Launch),
            Command::Attach => Ok(Asked::Other),
            Command::ConfigurationDone => Ok(Asked::ConfigurationDone),
            Command::Threads => Ok(Asked::Other),
            Command::Cancel(_) => Ok(Asked::Other),
            Command::Restart => Ok(Asked::Resume),
            Command::Terminate => Ok(Asked::Terminate),
            Command::Disconnect(_) => Ok(Asked::Disconnect),
            Command::SetBreakpoints(arguments) => source(alloc, arguments),
            Command::SetFunctionBreakpoints(_) => Ok(Asked::SetFunctionBreakpoints),
            Command::SetInstructionBreakpoints(_) => Ok(Asked::SetInstructionBreakpoints),
            Command::SetExceptionBreakpoints => Ok(Asked::Other),
            Command::Continue(_) => Ok(Asked::Continue),
            Command::Next(_) => Ok(Asked::Resume),
            Command::StepIn(_) => Ok(Asked::Resume),
            Command::StepOut(_) => Ok(Asked::Resume),
            Command::StepBack(_) => Ok(Asked::Resume),
            Command::ReverseContinue(_) => Ok(Asked::Resume),
            Command::Pause(_) => Ok(Asked::Other),
            Command::StackTrace(arguments) => Ok(Asked::StackTrace(arguments.start_frame)),
            Command::Scopes(_) => Ok(Asked::Other),
            Command::Variables(_) => Ok(Asked::Variables),
            Command::SetVariable(arguments) => Ok(Asked::SetVariable(copied(
                alloc,
                arguments.name.as_str().as_bytes(),
            )?)),
            Command::Evaluate(_) => Ok(Asked::Other),
            Command::Disassemble(_) => Ok(Asked::Other),
            Command::ReadMemory(_) => Ok(Asked::ReadMemory),
            Command::WriteMemory(arguments) => writing(alloc, arguments),
        }
    }
}

// What `setBreakpoints` asks.
fn source(alloc: Global, arguments: &SetBreakpointsArguments) -> Result<Asked, AllocError>
    ensures { IfOk result (λ asked. asked ≡ Asked.SetBreakpoints arguments.now.source.path) }
{
    match &arguments.source.path {
        None => Ok(Asked::SetBreakpoints(None)),
        Some(path) => Ok(Asked::SetBreakpoints(Some(copied(alloc, path.as_str().as_bytes())?))),
    }
}

// What `writeMemory` asks.
fn writing(alloc: Global, arguments: &WriteMemoryArguments) -> Result<Asked, AllocError>
    ensures { IfOk result (λ asked. asked ≡ asked_of (Command.WriteMemory arguments.now)) }
{
    let place = address_in(arguments.memory_reference.as_str(), arguments.offset);
    Ok(Asked::WriteMemory(place, copied(alloc, arguments.bytes.as_slice())?))
}

/// A copy of bytes. It fails where no memory is left.
pub(crate) fn copied(alloc: Global, bytes: &[u8]) -> Result<Bytes, AllocError>
    ensures { IfOk result (λ copy. copy ≡ bytes.now) }
{
    Ok(Bytes::from_vec(Vec::from_slice(alloc, bytes)?))
}

/// What was asked, by the numbers of the requests: of a number the first request that was told. A contract sees the entries.
#[derive(Drop)]
pub(crate) struct Requests {
    map: BTreeMap<u32, Asked>,
}

impl Model for Requests {
    ghost use Rattle.std.specs.Prelude.{List, ℕ};
    ghost use Rattle.mirror.specs.declared.asked.Asked.{Asked};

    ghost Value = { List (ℕ × Asked) };

    ghost view = { λ r. r.map.entries };
}

impl Requests {
    ghost use Rattle.std.specs.Prelude.{[]};

    /// None. It takes no memory.
    pub(crate) fn new(alloc: Global) -> Requests
        ensures { result ≡ [] }
    {
        Requests {
            map: BTreeMap::new(alloc),
        }
    }

    /// What a request asked.
    pub(crate) fn get(&self, seq: u32) -> Option<&Asked>
        ensures { option_copied result ≡ at self.now seq }
    {
        self.map.get(&seq)
    }

    /// A request is told. The first of a number stays. Where no memory is left, nothing changes.
    pub(crate) fn tell(
        &mut self,
        alloc: Global,
        seq: u32,
        command: &Command,
    ) -> Result<(), AllocError>
        ensures ok { OnOk result (at self.new ≡ told_of (at self.old) seq (asked_of command.now)) }
        ensures err { OnErr result (self.new ≡ self.old) }
    {
        if self.map.contains_key(&seq) {
            return Ok(());
        }
        let asked = Asked::of(alloc, command)?;
        self.map.insert(seq, asked)?;
        Ok(())
    }
}

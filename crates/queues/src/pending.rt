//! A request that waits for its answer.
ghost use Rattle.std.specs.Prelude.{◌≡◌, IfOk};
ghost use Rattle.queues.specs.Arrivals as spec;

use protocol::{Command, Refusal, Request, Text};
use std::alloc::{AllocError, Global};

/// What an editor asks.
#[derive(Drop)]
pub enum Ask {
    /// A request that can be looked at further.
    Request(Request),
    /// A request of a name that the adapter lacks, or with arguments that it cannot take.
    Bad {
        /// The number that the editor gave it.
        seq: u32,
        /// The name that the editor gave.
        command: Text,
        /// Why it is refused.
        refusal: Refusal,
    },
}

/// What became of a request while it waits.
#[derive(Clone, Copy, Debug, PartialEq, Eq)]
pub enum Fate {
    /// Nothing: it will be answered as it stands.
    Waits,
    /// Its number was not above those that came before it.
    Repeated,
    /// A `cancel` named it.
    Cancelled,
    /// It is a `cancel`, and named no request that waited.
    NamesNone,
}

/// A request that waits for its answer.
#[derive(Drop)]
pub struct Pending {
    /// What is asked.
    pub ask: Ask,
    /// What became of it so far.
    pub fate: Fate,
}

impl Ask {
    /// The number that the editor gave it (`ProtocolMessage.seq`).
    pub fn number(&self) -> u32
        ensures { result ≡ spec.number_of self.now }
    {
        match self {
            Ask::Request(request) => request.seq,
            Ask::Bad { seq, .. } => *seq,
        }
    }

    /// The name of what is asked (`Request.command`).
    pub fn name(&self) -> &str
        ensures { result.now ≡ spec.name_asked self.now }
    {
        match self {
            Ask::Request(request) => request.command.name(),
            Ask::Bad { command, .. } => command.as_str(),
        }
    }

    /// A copy of the name that the request gave. It fails where no memory is left.
    pub fn copy_name(&self, alloc: Global) -> Result<Text, AllocError>
        ensures { IfOk result (λ text. text ≡ spec.name_asked self.now) }
    {
        Ok(Text::from_string(String::from_str(alloc, self.name())?))
    }

    /// The number of the request that it cancels, where it is a `cancel` and names one.
    pub fn cancels(&self) -> Option<i32>
        ensures { result ≡ spec.cancels self.now }
    {
        match self {
            Ask::Request(request) => match &request.command {
                Command::Cancel(arguments) => arguments.request_id,
                _ => None,
            },
            Ask::Bad { .. } => None,
        }
    }
}

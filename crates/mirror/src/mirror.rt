//! A mirror: what an editor may know, by what it sent and what came.
ghost use Rattle.std.specs.Prelude.{◌≡◌, IfSome, option_copied, slice_get, OnErr};
ghost use Rattle.mirror.specs.Kept.{facts_of};
ghost use Rattle.mirror.specs.Streams.{
  FeedsPast,
  Feeds,
  Past,
  StandsFor,
  TellsPast,
  first_fault,
  link_fault,
  nothing_past,
};
ghost use Rattle.mirror.specs.declared.error.MirrorError.TheVariants.{NoMemory};

use crate::asked::Requests;
use crate::error::MirrorError;
use crate::known::Known;
use crate::news::{take_news, take_piece};
use facts::{BreakInfo, FrameInfo, RunState};
use framing::{FrameError, Unframer};
use protocol::{MessageError, Request};
use std::alloc::Global;
use std::marker::Model;

/// The most bytes that a body may have.
const BODY_LIMIT: u32 = 4_294_967_295;

/// What an editor may know of the machine, by the requests that it sent and the bytes that came (Debug Adapter Protocol). Of bytes
/// that came only the next frame's are kept, and of facts told twice the later one. A contract sees the facts, what was asked, and
/// where the stream continues or which fault it has.
#[derive(Drop)]
pub struct Mirror {
    alloc: Global,
    unframer: Unframer,
    requests: Requests,
    known: Known,
    fault: Option<MirrorError>,
}

impl Model for Mirror {
    ghost use Rattle.mirror.specs.Kept.{Kept};
    ghost use Rattle.mirror.specs.Streams.{Follows, link_by};

    ghost Value = { Kept };

    ghost view = { λ m. record {
      known = m.known;
      asked = m.requests;
      link = link_by m.fault m.unframer.tail;
    } };

    ghost invariant = { λ m. Follows m.unframer m.fault };
}

impl Mirror {
    /// A mirror that nothing was told. It takes no memory.
    pub fn new(alloc: Global) -> Mirror
        ensures { StandsFor result nothing_past }
    {
        Mirror {
            alloc,
            unframer: Unframer::new(alloc, BODY_LIMIT),
            requests: Requests::new(alloc),
            known: Known::new(alloc),
            fault: None,
        }
    }

    /// A request is told that the editor sends (`Request`). Of a number the first stays.
    ///
    /// `Frame` and `Message`: the stream has that fault, and nothing changes. Else `NoMemory`: no memory was left, and nothing
    /// changes.
    pub fn sent(&mut self, request: &Request) -> Result<(), MirrorError>
        ensures past { (past : Past) → StandsFor self.old past
            → TellsPast past request.now self.old result self.new }
        ensures faulty { IfSome (link_fault self.old.link) (λ error. result ≡ Err error) }
        ensures err { OnErr result (self.new ≡ self.old) }
    {
        if let Some(fault) = self.fault {
            return Err(fault);
        }
        self.requests
            .tell(self.alloc, request.seq, &request.command)?;
        Ok(())
    }

    /// Takes the next piece of the stream: each message that is whole now changes the facts, in order.
    ///
    /// `Frame`: the stream so far has that fault where a frame is to begin; `Message`: a whole body is no message of the adapter;
    /// the first of these. It comes as soon as the stream has it, and at each later call. The messages before it change the
    /// facts, and then nothing does. Else `NoMemory`: no memory was left, and nothing changes; the piece can be fed again.
    pub fn feed(&mut self, piece: &[u8]) -> Result<(), MirrorError>
        // By what is kept.
        ensures kept { Feeds self.old piece.now result self.new }

        // By all that was told and all that came.
        ensures past { (past : Past) → StandsFor self.old past
            → FeedsPast past piece.now self.old result self.new }

        // A fault stays, also where no memory is left.
        ensures faulty { IfSome (link_fault self.old.link) (λ error. result ≡ Err error) }
    {
        self.take(piece)
    }

    // `feed`, by what is kept.
    fn take(&mut self, piece: &[u8]) -> Result<(), MirrorError>
        ensures kept { Feeds self.old piece.now result self.new }
        ensures faulty { IfSome (link_fault self.old.link) (λ error. result ≡ Err error) }
    {
        if let Some(fault) = self.fault {
            return Err(fault);
        }
        let frame = take_piece(&mut self.unframer, piece)?;
        let message = take_news(
            self.alloc,
            &mut self.unframer,
            &self.requests,
            &mut self.known,
        )?;
        self.fault = first_fault(message, frame);
        match self.fault {
            None => Ok(()),
            Some(fault) => Err(fault),
        }
    }

    /// Whether the machine runs.
    pub fn run(&self) -> RunState
        ensures { result ≡ (facts_of self.now.known).run }
    {
        self.known.run
    }

    /// The breakpoint at an index, from 0, of those that are set in the source of a path (`SetBreakpointsResponse`).
    pub fn source_break(&self, path: &[u8], index: usize) -> Option<BreakInfo>
        ensures { result ≡ slice_get ((facts_of self.now.known).source path.now) index }
    {
        self.known.sources.get(path, index)
    }

    /// The breakpoint at an index, from 0, of those that are set at instructions (`SetInstructionBreakpointsResponse`).
    pub fn instruction_break(&self, index: usize) -> Option<BreakInfo>
        ensures { result ≡ slice_get (facts_of self.now.known).instructions index }
    {
        self.known.instructions.get(index)
    }

    /// The breakpoint at an index, from 0, of those that are set at functions (`SetFunctionBreakpointsResponse`).
    pub fn function_break(&self, index: usize) -> Option<BreakInfo>
        ensures { result ≡ slice_get (facts_of self.now.known).functions index }
    {
        self.known.functions.get(index)
    }

    /// The frame at an index, lent; the innermost is 0 (`StackTraceResponse`).
    pub fn frame(&self, index: u32) -> Option<&FrameInfo>
        ensures { option_copied result ≡ (facts_of self.now.known).frame index }
    {
        self.known.frames.get(index)
    }

    /// The value of the register of a number from 0 to 31, or of pc, which is 32 (`VariablesResponse`). Others have none.
    pub fn register(&self, number: u32) -> Option<u32>
        ensures { result ≡ (facts_of self.now.known).register number }
    {
        self.known.registers.get(number)
    }

    /// The byte of memory at an address (`ReadMemoryResponse`).
    pub fn byte(&self, address: u32) -> Option<u8>
        ensures { result ≡ (facts_of self.now.known).byte address }
    {
        self.known.bytes.get(address)
    }
}

// The first fault: that of a body comes before that of the frames after it.
fn first_fault(message: Option<MessageError>, frame: Option<FrameError>) -> Option<MirrorError>
    ensures { result ≡ first_fault message frame }
{
    match (message, frame) {
        (Some(error), _) => Some(MirrorError::Message(error)),
        (None, Some(fault)) => Some(MirrorError::Frame(fault)),
        (None, None) => None,
    }
}

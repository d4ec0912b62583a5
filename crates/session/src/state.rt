//! What a session keeps.
ghost use Rattle.std.specs.Prelude.{◌≡◌, ◌≢◌, ◌≤◌, ◌^◌, None, true, [], Option, Some, Ok, Err, IfOk, OnOk, OnErr, IsSome, ◌++◌, ◌∷◌, List, ℕ, length};
ghost use Rattle.std.specs.Option.{option_map};
ghost use Rattle.session.specs.declared.event.Event.TheVariants as event;
ghost use Rattle.queues.specs.declared.pending.Pending.{Pending as APending};
ghost use Rattle.std.specs.Prelude.{if◌then◌else◌};
ghost use Rattle.session.specs.declared.event.Applied.TheVariants as applied;
ghost use Rattle.handlers.specs.Changes.{answering_as, changed, events_of, call_of};
ghost use Rattle.session.specs.Kept.{Drafted, Goes, HasNumbers, answered, draft_on, drafted, drafted_all, kept_changed, keeps, now_changed, nothing_kept, keepings, see_kept, settled};
ghost use Rattle.handlers.specs.Breaks.{Numbered as ANumbered};
ghost use Rattle.handlers.specs.Sizes.{IsSize};
ghost use Rattle.handlers.specs.Demands.{run_of};
ghost use Rattle.std.specs.Option.{option_copied};
ghost use Rattle.debuggee.specs.Programs.{left, marked, with_program};
ghost use Rattle.session.specs.Acts as acts;
ghost use Rattle.session.specs.Acts.{given_of, refers};
ghost use Rattle.queues.specs.Arrivals.{no_arrivals, others_pending};
ghost use Rattle.framing.specs.Reading.Tail.{Partial};
ghost use Rattle.session.specs.Outcomes as spec;
ghost use Rattle.handlers.specs.Refusals.{response_to};
ghost use Rattle.session.specs.Outcomes.{wanted_on};
ghost use Rattle.session.specs.Private.Preparing.{IsPrepared};
ghost use Rattle.handlers.specs.declared.change.Change.TheVariants as a_change;
ghost use Rattle.session.specs.Sessions.{agreed_on, snapshot_of};
ghost use Rattle.session.specs.Slices.{is_runnable};
ghost use Rattle.snapshots.specs.Snapshots.{IsTaken};
ghost use Rattle.session.specs.Effects.{performed};
ghost use Rattle.variables.specs.Laws.Call.{Issue};
ghost use Rattle.variables.specs.Numbers.{has_room};

use crate::BODY_LIMIT;
use crate::draft::Draft;
use crate::event::{EventError, LinkFault, Turned};
use crate::limits::Limits;
use crate::link::Link;
use crate::prepared::Prepared;
use debuggee::{Mark, Program};
use framing::{FrameError, Unframer};
use handlers::{
    Answer, Change, Lent, Numbered, ProgramChange, Terms, answer_to, response_to, run_of, wanted_by,
};
use protocol::MessageError;
use queues::{Arrivals, Buffer, Pending, feed};
use replies::{Event, Message, Outcome};
use snapshots::Snapshot;
use std::alloc::{AllocError, Global};
use std::marker::Model;
use variables::{Handles, IssueError, Target};

/// The most bytes of a piece.
pub const MOST_PIECE: usize = 65_536;

/// Where this many requests wait, no piece is taken.
pub const MOST_PENDING: usize = 256;

/// Where more bytes wait, no request is answered.
pub const FULL: usize = 65_536;

/// The last number of a connection.
pub const LAST_CONNECTION: u32 = 4_294_967_295;

#[derive(Drop)]
pub(crate) struct State {
    pub(crate) alloc: Global,
    pub(crate) limits: Limits,
    size: u32,
    connections: u32,
    pub(crate) link: Option<Link>,
    arrivals: Arrivals,
    unframer: Unframer,
    fault: Option<LinkFault>,
    pub(crate) buffer: Buffer,
    pub(crate) program: Option<Program>,
    last_break: u32,
    handles: Handles,
}

impl Model for State {
    ghost use Rattle.std.specs.Prelude.{◌≡◌, ◌≤◌, ◌^◌, []};
    ghost use Rattle.session.specs.declared.TheConstants.{BODY_LIMIT};
    ghost use Rattle.session.specs.Kept.{Kept};
    ghost use Rattle.handlers.specs.Breaks.{Numbered as ANumbered};
    ghost use Rattle.handlers.specs.Sizes.{IsSize};
    ghost use Rattle.std.specs.Coded.{codes};
    ghost use Rattle.breakpoints.specs.Codes.{coded_tree};

    ghost coded = { Prim.hlevel (codes, coded_tree) };

    ghost Value = { Kept };

    ghost view = { λ s. record {
      now = record {
        limits = s.limits;
        size = s.size;
        connections = s.connections;
        link = s.link;
        arrivals = s.arrivals;
        tail = s.unframer.tail;
        fault = s.fault;
        debuggee = record { program = s.program; last_break = s.last_break };
        numbers = s.handles;
      };
      waiting = s.buffer;
    } };

    ghost invariant = { λ s. (s.unframer.limit ≡ BODY_LIMIT) × (s.unframer.waiting ≡ [])
        × IsSize s.size × (s.limits.last_retired ≤ 2 ^ 62) × (s.limits.last_ref ≤ 2147483647)
        × (s.last_break ≤ 2147483647) };
}

impl State {
    /// Before anything happened. It takes no memory.
    pub(crate) fn new(alloc: Global, limits: Limits, size: u32, program: Option<Program>) -> State
        requires size { IsSize size }
        requires few { limits.last_retired ≤ 2 ^ 62 }
        requires numbers { limits.last_ref ≤ 2147483647 }
        ensures { result ≡ nothing_kept limits size program }
    {
        State {
            alloc,
            limits,
            size,
            connections: 0,
            link: None,
            arrivals: Arrivals::new(alloc),
            unframer: Unframer::new(alloc, BODY_LIMIT),
            fault: None,
            buffer: Buffer::new(alloc),
            program,
            last_break: 0,
            handles: Handles::new(alloc, limits.last_ref),
        }
    }

    /// An editor connects.
    pub(crate) fn connect(&mut self) -> Result<u32, EventError>
        ensures kept { Goes self.old event.Connect (answered applied.Connect result) self.new }
        ensures err { OnErr result (self.new ≡ self.old) }
        ensures takes_none { result ≡ Err EventError.NoMemory → ⊥ }
    {
        if self.link.is_some() {
            return Err(EventError::AlreadyConnected);
        }
        if self.connections == LAST_CONNECTION {
            return Err(EventError::Spent);
        }
        self.connections += 1;
        self.link = Some(Link {
            seq: 0,
            terms: Terms::first(),
            is_closing: false,
        });
        self.forget();
        self.fault = None;
        Ok(self.connections)
    }

    /// Some of the waiting bytes were sent.
    pub(crate) fn sent(&mut self, count: usize) -> Result<(), EventError>
        ensures kept { Goes self.old (event.Sent count)
            (answered (λ _. applied.Sent) result) self.new }
        ensures err { OnErr result (self.new ≡ self.old) }
        ensures takes_none { result ≡ Err EventError.NoMemory → ⊥ }
    {
        if self.link.is_none() {
            return Err(EventError::NotConnected);
        }
        if count > self.buffer.len() {
            return Err(EventError::SentTooMuch);
        }
        self.buffer.take(count);
        Ok(())
    }

    /// The connection ends.
    pub(crate) fn drop_connection(&mut self) -> Result<(), EventError>
        ensures kept { Goes self.old event.DropConnection
            (answered (λ _. applied.DropConnection) result) self.new }
        ensures err { OnErr result (self.new ≡ self.old) }
        ensures takes_none { result ≡ Err EventError.NoMemory → ⊥ }
    {
        if self.link.is_none() {
            return Err(EventError::NotConnected);
        }
        if let Some(program) = &mut self.program {
            program.leave();
        }
        self.link = None;
        self.forget();
        self.handles.end_stop();
        Ok(())
    }

    /// The program is to stand still before its next move.
    pub(crate) fn hold(&mut self)
        ensures { Goes self.old event.Hold (Ok applied.Hold) self.new }
    {
        if let Some(program) = &mut self.program {
            program.set_mark(Mark::Hold);
        }
    }

    // Nothing is kept of what came on a connection, nor of what waits to be sent.
    fn forget(&mut self)
        ensures { self.new ≡ record self.old {
          now = record self.old.now { arrivals = no_arrivals; tail = Partial [] };
          waiting = [];
        } }
    {
        self.arrivals = Arrivals::new(self.alloc);
        self.unframer = Unframer::new(self.alloc, BODY_LIMIT);
        self.buffer.clear();
    }

    /// Tells what is owed, or else answers the first request that waits, with the file that it names.
    pub(crate) fn turn(&mut self, file: Option<&[u8]>) -> Result<Turned, EventError>
        ensures kept { Goes self.old (event.Turn (option_copied file.entry))
            (answered applied.Turn result) self.new }
        ensures err { OnErr result (self.new ≡ self.old) }
    {
        let Some(link) = self.link else {
            return Err(EventError::NotConnected);
        };
        if let Some(tick) = self.owed() {
            return match self.tell(tick) {
                Ok(()) => Ok(Turned::Answered),
                Err(_) => Err(EventError::NoMemory),
            };
        }
        if self.buffer.len() > FULL {
            return Ok(Turned::Full);
        }
        match self.answer_first(link, file) {
            Ok(turned) => Ok(turned),
            Err(_) => Err(EventError::NoMemory),
        }
    }

    // Answers the first request that waits on the connection: all growth comes first, then the change,
    // and then the numbers are given.
    #[tactic(auto, using(crate::proofs::Drafting::first_answers, crate::proofs::Drafting::answer_needs, crate::proofs::Numbering::prepared_has_numbers))]
    fn answer_first(&mut self, link: Link, file: Option<&[u8]>) -> Result<Turned, AllocError>
        requires { self.old.now.link ≡ Some link }
        ensures answer { IfOk result
            (λ turned. (spec.next_turn self.old.now link.terms
            (option_copied file.entry) self.old.now.arrivals.pending).answer
            ≡ Ok (applied.Turn turned)) }
        ensures ok { OnOk result (self.new
            ≡ performed keepings (spec.next_turn self.old.now link.terms
            (option_copied file.entry) self.old.now.arrivals.pending).acts self.old) }
        ensures err { OnErr result (self.new ≡ self.old) }
        ensures needs { OnErr result
            (spec.needs_memory (spec.next_turn self.old.now link.terms
            (option_copied file.entry) self.old.now.arrivals.pending).acts ≡ true) }
    {
        let Some(first) = self.arrivals.first() else {
            return Ok(Turned::Nothing);
        };
        let prepared = self.prepare(link, file, first)?;
        self.carry_out(prepared.change, prepared.terms, &prepared.draft)?;
        self.settle(prepared.draft.seq());
        self.hang_up(prepared.closes);
        Ok(Turned::Answered)
    }

    // What the first request is answered, written.
    fn prepare(
        &self,
        link: Link,
        file: Option<&[u8]>,
        first: &Pending,
    ) -> Result<Prepared, AllocError>
        ensures { IfOk result (λ r. IsPrepared self.now.now first.now
            (spec.answer_to self.now.now link.terms (option_copied file.entry) first.now)
            r) }
    {
        let answer = answer_to(self.alloc, &self.lent(link.terms, file), first)?;
        self.write(first, answer)
    }

    // The answer to a request, written.
    fn write(&self, pending: &Pending, answer: Answer) -> Result<Prepared, AllocError>
        ensures { IfOk result (λ r. IsPrepared self.now.now pending.now
            (answering_as self.now.now.debuggee answer) r) }
    {
        let Answer {
            change,
            terms,
            outcome,
            event,
            closes,
        } = answer;
        match self.draft_answer(pending, outcome, event) {
            Ok(draft) => Ok(Prepared {
                change,
                terms,
                closes,
                draft,
            }),
            Err(refused) => {
                drop(change);
                Err(refused)
            }
        }
    }

    // What an answer is lent.
    fn lent<'s>(&'s self, terms: Terms, file: Option<&'s [u8]>) -> Lent<'s>
        ensures { result ≡ record {
          given = given_of self.now.now;
          terms = terms;
          file = option_copied file.entry;
        } }
    {
        Lent::new(
            terms,
            &self.program,
            &self.handles,
            file,
            self.size,
            self.last_break,
            self.limits.last_ref,
        )
    }

    // The answer to a request, written, with what the editor is told after it.
    fn draft_answer(
        &self,
        pending: &Pending,
        outcome: Outcome,
        event: Option<Event>,
    ) -> Result<Draft, AllocError>
        ensures { IfOk result (λ d. d ≡ drafted_all self.now.now.limits (events_of event)
            (drafted self.now.now.limits (Message.Response (response_to pending.now.ask outcome))
            (draft_on self.now.now.limits self.now.now.link))) }
    {
        let draft = self.draft_response(pending, outcome)?;
        draft.with_event(self.limits, event)
    }

    // The response to a request, written.
    fn draft_response(&self, pending: &Pending, outcome: Outcome) -> Result<Draft, AllocError>
        ensures { IfOk result (λ d. d ≡ drafted self.now.now.limits
            (Message.Response (response_to pending.now.ask outcome))
            (draft_on self.now.now.limits self.now.now.link)) }
    {
        let response = response_to(self.alloc, &pending.ask, outcome)?;
        let mut draft = Draft::new(self.alloc, self.limits, self.link);
        draft.add(self.limits, Message::Response(response))?;
        Ok(draft)
    }

    // What was drafted is queued, and the change stands: both or none.
    fn carry_out(&mut self, change: Change, terms: Terms, draft: &Draft) -> Result<(), AllocError>
        requires { HasNumbers (call_of change) self.old.now.numbers }
        ensures ok { OnOk result
            (self.new ≡ kept_changed change terms
            (record self.old { waiting = self.old.waiting ++ draft.now.bytes })) }
        ensures err { OnErr result (self.new ≡ self.old) }
    {
        if let Err(refused) = self.buffer.push(draft.bytes()) {
            drop(change);
            return Err(refused);
        }
        match self.change(change) {
            Ok(()) => {
                self.agree(terms);
                Ok(())
            }
            Err(refused) => {
                self.buffer.take_back(draft.bytes().len());
                Err(refused)
            }
        }
    }

    // What an answer makes of the program that is debugged, and of the references.
    fn change(&mut self, change: Change) -> Result<(), AllocError>
        requires { HasNumbers (call_of change) self.old.now.numbers }
        ensures ok { OnOk result
            (self.new ≡ record self.old { now = now_changed change self.old.now }) }
        ensures err { OnErr result (self.new ≡ self.old) }
    {
        match change {
            Change::Nothing => Ok(()),
            Change::Load(program) => {
                self.load(program);
                Ok(())
            }
            Change::SetSource(breaks) => self.set_source(breaks),
            Change::SetInstructions(breaks) => self.set_instructions(breaks),
            Change::SetFunctions(breaks) => self.set_functions(breaks),
            Change::Issue(targets) => self.issue(targets),
            Change::OfProgram(change) => self.change_program(change),
        }
    }

    // The program that is debugged is now this, and the one before it goes.
    fn load(&mut self, program: Program)
        ensures { self.new ≡ record self.old
            { now = now_changed (a_change.Load program) self.old.now } }
    {
        if let Some(before) = self.program.replace(program) {
            drop(before);
        }
    }

    // References are issued for these targets.
    fn issue(&mut self, targets: Vec<Target>) -> Result<(), AllocError>
        requires { has_room self.old.now.numbers targets.items ≡ true }
        ensures ok { OnOk result
            (self.new ≡ record self.old { now = refers self.old.now (Some (Issue targets.items)) }) }
        ensures err { OnErr result (self.new ≡ self.old) }
    {
        match self.handles.issue(targets.as_slice()) {
            Ok(_) => Ok(()),
            Err(IssueError::NoMemory) => Err(AllocError),
            Err(IssueError::Exhausted) => unreachable!(),
        }
    }

    // The program is changed, if there is one; and the stop ends for the references where the change ends it.
    fn change_program(&mut self, change: ProgramChange) -> Result<(), AllocError>
        ensures ok { OnOk result
            (self.new ≡ record self.old
            { now = now_changed (a_change.OfProgram change) self.old.now }) }
        ensures err { OnErr result (self.new ≡ self.old) }
    {
        let ends = change.ends_stop();
        if let Some(program) = &mut self.program {
            change.make(program)?;
        }
        if ends {
            self.handles.end_stop();
        }
        Ok(())
    }

    // The breakpoints of source lines are now these.
    fn set_source(&mut self, breaks: Numbered) -> Result<(), AllocError>
        ensures ok { OnOk result
            (self.new ≡ record self.old {
              now = record self.old.now
                  { debuggee = changed (a_change.SetSource breaks) self.old.now.debuggee };
            }) }
        ensures err { OnErr result (self.new ≡ self.old) }
    {
        let last = breaks.last();
        if let Some(program) = &mut self.program {
            breaks.set_source(program)?;
        }
        self.last_break = last;
        Ok(())
    }

    // Those of instructions are now these.
    fn set_instructions(&mut self, breaks: Numbered) -> Result<(), AllocError>
        ensures ok { OnOk result
            (self.new ≡ record self.old {
              now = record self.old.now
                  { debuggee = changed (a_change.SetInstructions breaks) self.old.now.debuggee };
            }) }
        ensures err { OnErr result (self.new ≡ self.old) }
    {
        let last = breaks.last();
        if let Some(program) = &mut self.program {
            breaks.set_instructions(program)?;
        }
        self.last_break = last;
        Ok(())
    }

    // Those of functions are now these.
    fn set_functions(&mut self, breaks: Numbered) -> Result<(), AllocError>
        ensures ok { OnOk result
            (self.new ≡ record self.old {
              now = record self.old.now
                  { debuggee = changed (a_change.SetFunctions breaks) self.old.now.debuggee };
            }) }
        ensures err { OnErr result (self.new ≡ self.old) }
    {
        let last = breaks.last();
        if let Some(program) = &mut self.program {
            breaks.set_functions(program)?;
        }
        self.last_break = last;
        Ok(())
    }

    // This is agreed on the connection.
    fn agree(&mut self, terms: Terms)
        ensures { self.new ≡ keeps (agreed_on self.old.now.link terms) self.old }
    {
        if let Some(link) = self.link {
            self.link = Some(Link { terms, ..link });
        }
    }

    // Messages up to this number were queued, the first of them the answer to the first request.
    fn settle(&mut self, seq: u32)
        ensures { self.new ≡ record self.old {
          now = settled self.old.now.link seq
              (others_pending self.old.now.arrivals.pending) self.old.now;
        } }
    {
        if self.settle_told(seq) {
            self.arrivals.pass();
        }
    }

    // Events up to this number were queued. Answers whether one was, and requests may still wait.
    pub(crate) fn settle_told(&mut self, seq: u32) -> bool
        ensures settled { self.new ≡ record self.old {
          now = settled self.old.now.link seq self.old.now.arrivals.pending self.old.now;
        } }
        ensures wait { (rest : List APending) → settled self.old.now.link seq rest self.old.now
            ≡ (if result then record self.new.now
            { arrivals = record self.new.now.arrivals { pending = rest } } else self.new.now) }
    {
        let Some(link) = self.link else {
            return false;
        };
        if link.seq >= seq {
            return false;
        }
        let is_last = seq == self.limits.last_seq;
        if is_last {
            self.arrivals.drop_all();
        }
        self.link = Some(Link {
            seq,
            terms: link.terms,
            is_closing: is_last || link.is_closing,
        });
        !is_last
    }

    // The connection takes nothing more, where it closes.
    fn hang_up(&mut self, closes: bool)
        ensures { self.new ≡ performed keepings (spec.closing closes) self.old }
    {
        if !closes {
            return;
        }
        if let Some(link) = self.link {
            self.link = Some(Link {
                is_closing: true,
                ..link
            });
        }
    }

    /// A piece of what the editor sends comes. All growth comes first: where no memory is left, the
    /// piece is taken back.
    pub(crate) fn recv(&mut self, piece: &[u8]) -> Result<(), EventError>
        ensures kept { Goes self.old (event.Recv piece.now)
            (answered (λ _. applied.Recv) result) self.new }
        ensures err { OnErr result (self.new ≡ self.old) }
    {
        let Some(link) = self.link else {
            return Err(EventError::NotConnected);
        };
        if link.is_closing {
            return Err(EventError::Closing);
        }
        if piece.len() > MOST_PIECE {
            return Err(EventError::PieceTooLong);
        }
        if self.arrivals.len() >= MOST_PENDING {
            return Err(EventError::Busy);
        }
        match self.accept(link, piece) {
            Ok(()) => Ok(()),
            Err(_) => Err(EventError::NoMemory),
        }
    }

    // The requests in a piece join those that wait, and its fault closes the connection.
    fn accept(&mut self, link: Link, piece: &[u8]) -> Result<(), AllocError>
        ensures ok { OnOk result (self.new ≡ record self.old {
          now = acts.accepted self.old.now (acts.read_on self.old.now piece.now) link;
        }) }
        ensures err { OnErr result (self.new ≡ self.old) }
    {
        let fault = self.take_in(piece)?;
        self.link = Some(Link {
            is_closing: fault.is_some(),
            ..link
        });
        self.fault = fault;
        Ok(())
    }

    // Feeds a piece, and joins the requests in it to those that wait. It answers the piece's fault,
    // after which nothing of the stream is kept.
    fn take_in(&mut self, piece: &[u8]) -> Result<Option<LinkFault>, AllocError>
        ensures ok { OnOk result (self.new ≡ record self.old {
          now = acts.taken_in self.old.now (acts.read_on self.old.now piece.now);
        }) }
        ensures fault { IfOk result
            (λ fault. fault ≡ acts.fault_of_reading (acts.read_on self.old.now piece.now)) }
        ensures err { OnErr result (self.new ≡ self.old) }
    {
        let frame_fault = feed(&mut self.unframer, piece)?;
        let message_fault = match self.arrivals.read(self.alloc, &mut self.unframer) {
            Ok(fault) => fault,
            Err(refused) => {
                self.unframer.retract();
                return Err(refused);
            }
        };
        let fault = first_fault(message_fault, frame_fault);
        if fault.is_some() {
            self.unframer = Unframer::new(self.alloc, BODY_LIMIT);
        }
        Ok(fault)
    }
}

impl State {
    /// The bytes that wait to be sent.
    pub(crate) fn waiting(&self) -> &[u8]
        ensures { result.now ≡ self.now.waiting }
    {
        self.buffer.as_slice()
    }

    /// How many requests wait for their answers.
    pub(crate) fn pending(&self) -> usize
        ensures { result ≡ length self.now.now.arrivals.pending }
    {
        self.arrivals.len()
    }

    /// Whether all is said on the connection.
    pub(crate) fn finished(&self) -> bool
        ensures { result ≡ spec.is_finished (see_kept self.now) }
    {
        match self.link {
            Some(link) => { link.is_closing && self.arrivals.len() == 0 && self.buffer.len() == 0 }
            None => false,
        }
    }

    /// Whether a slice would do something.
    pub(crate) fn runnable(&self) -> bool
        ensures { result ≡ is_runnable self.now.now }
    {
        match &self.program {
            Some(program) => self.is_given_time(program.run()),
            None => false,
        }
    }

    /// The path of the file that the next answer wants, if it wants one.
    #[tactic(auto, using(crate::proofs::Wanting::wants_first, crate::proofs::Wanting::wants_none))]
    pub(crate) fn wants_file(&self) -> Option<&str>
        ensures { option_map (λ path. path.now) result ≡ wanted_on self.now.now self.now.now.link }
    {
        let run = run_of(&self.program);
        match self.link {
            Some(link) => match self.arrivals.first() {
                Some(first) => wanted_by(run, link.terms.phase, first),
                None => None,
            },
            None => None,
        }
    }

    /// A copy of all that an editor could be told now. It fails where no memory is left.
    #[tactic(auto, using(snapshots::proofs::Seeing::is_taken))]
    pub(crate) fn snapshot(&self) -> Result<Snapshot, AllocError>
        ensures ok { IfOk result (λ taken. IsTaken taken (snapshot_of self.now.now)) }
        ensures err { OnErr result (self.now.now.debuggee.program ≢ None) }
    {
        Snapshot::of(self.alloc, &self.program, &self.handles)
    }

    /// What closed the connection, or the last one.
    pub(crate) fn link_fault(&self) -> Option<LinkFault>
        ensures { result ≡ self.now.now.fault }
    {
        self.fault
    }
}

// What closes a connection: the fault of a body comes before that of the stream after it.
fn first_fault(message: Option<MessageError>, frame: Option<FrameError>) -> Option<LinkFault>
    ensures { result ≡ acts.fault_or message frame }
{
    match message {
        Some(fault) => Some(LinkFault::Message(fault)),
        None => match frame {
            Some(fault) => Some(LinkFault::Frame(fault)),
            None => None,
        },
    }
}

//! The requests that came and wait for their answers.
ghost use Rattle.std.specs.Prelude.{◌≡◌, ◌<◌, ◌≤◌, ◌+◌, [], ◌∷◌, length, map, take, Option, Some, None, IfOk, OnOk, OnErr, Ok, ◌++◌};
ghost use Rattle.std.specs.Option.{option_copied};
ghost use Rattle.std.specs.List.{list_any};
ghost use Rattle.std.specs.VecDeque.{deque_len, deque_capacity};
ghost use Rattle.framing.specs.Streams.{Unframed};
ghost use Rattle.queues.specs.Arrivals as spec;

use crate::pending::{Ask, Fate, Pending};
use framing::Unframer;
use protocol::{Incoming, MessageError, read_request};
use std::alloc::{AllocError, Global};
use std::collections::VecDeque;
use std::marker::Model;

/// The requests that came on a connection and wait for their answers, first come first. A contract
/// sees the highest number of all that came, and those that wait.
#[derive(Drop)]
pub struct Arrivals {
    highest: Option<u32>,
    pending: VecDeque<Pending>,
}

impl Model for Arrivals {
    ghost use Rattle.queues.specs.Arrivals as spec;

    ghost Value = { spec.Arrivals };

    ghost view = { λ a. record { highest = a.highest; pending = a.pending.items } };
}

impl Arrivals {
    /// No request came yet. It takes no memory.
    pub fn new(alloc: Global) -> Arrivals
        ensures { result ≡ spec.no_arrivals }
    {
        Arrivals {
            highest: None,
            pending: VecDeque::new(alloc),
        }
    }

    /// How many requests wait.
    pub fn len(&self) -> usize
        ensures { result ≡ length self.now.pending }
    {
        self.pending.len()
    }

    /// The first that waits.
    pub fn first(&self) -> Option<&Pending>
        ensures { option_copied result ≡ spec.first_pending self.now.pending }
    {
        self.pending.front()
    }

    /// The first waits no more.
    pub fn pass(&mut self)
        ensures { self.new ≡ record self.old { pending = spec.others_pending self.old.pending } }
    {
        let _ = self.pending.pop_front();
    }

    /// None of them waits any more.
    pub fn drop_all(&mut self)
        ensures { self.new ≡ record self.old { pending = [] } }
    {
        self.pending.clear();
    }

    /// The requests in the bodies that wait to be lent, up to the first that is no message, join
    /// those that wait for their answers. It answers what that one has wrong, if there is one. Where
    /// no memory is left, none joins.
    pub fn read(
        &mut self,
        alloc: Global,
        unframer: &mut Unframer,
    ) -> Result<Option<MessageError>, AllocError>
        ensures ok { OnOk result
            (self.new ≡ spec.all_joined self.old (spec.asks_of unframer.old.waiting)) }
        ensures fault { IfOk result (λ fault. fault ≡ spec.message_fault_of unframer.old.waiting) }
        ensures all_lent { IfOk result (λ fault. fault ≡ None → unframer.new.waiting ≡ []) }
        ensures err { OnErr result (self.new ≡ self.old) }
        ensures before { unframer.new.before ≡ unframer.old.before }
        ensures limit { unframer.new.limit ≡ unframer.old.limit }
        ensures tail { unframer.new.tail ≡ unframer.old.tail }
    {
        let read = read_asks(alloc, unframer)?;
        self.join_all(read.asks)?;
        Ok(read.fault)
    }

    // Requests join those that wait, one after the other. Where no memory is left, none does.
    fn join_all(&mut self, asks: Vec<Ask>) -> Result<(), AllocError>
        ensures ok { OnOk result (self.new ≡ spec.all_joined self.old asks.items) }
        ensures err { OnErr result (self.new ≡ self.old) }
    {
        self.pending.reserve(asks.len())?;
        for ask in asks {
            self.highest = join(&mut self.pending, self.highest, ask);
        }
        Ok(())
    }
}

// One request joins those that wait, for which there is room, and the highest number is answered.
fn join(pending: &mut VecDeque<Pending>, highest: Option<u32>, ask: Ask) -> Option<u32>
    requires { deque_len pending.old < deque_capacity pending.old }
    ensures joined { spec.joined (record { highest = highest; pending = pending.old.items }) ask
        ≡ record { highest = result; pending = pending.new.items } }
    ensures len { deque_len pending.new ≡ deque_len pending.old + 1 }
    ensures capacity { deque_capacity pending.new ≡ deque_capacity pending.old }
{
    let number = ask.number();
    if highest.is_some_and(|highest| number <= highest) {
        pending.push_back_reserved(Pending {
            ask,
            fate: Fate::Repeated,
        });
        return highest;
    }
    let fate = match ask.cancels() {
        Some(id) => cancel(pending, id),
        None => Fate::Waits,
    };
    pending.push_back_reserved(Pending { ask, fate });
    Some(number)
}

// Cancels the request of that number, where it waits, and answers what becomes of the `cancel`.
fn cancel(pending: &mut VecDeque<Pending>, id: i32) -> Fate
    ensures cancelled { pending.new.items ≡ map (spec.cancelled_by id) pending.old.items }
    ensures fate { result ≡ spec.fate_of_cancel id pending.old.items }
    ensures len { deque_len pending.new ≡ deque_len pending.old }
    ensures capacity { deque_capacity pending.new ≡ deque_capacity pending.old }
{
    let mut fate = Fate::NamesNone;
    for i in 0..pending.len() {
        if mark(&mut pending[i], id) {
            fate = Fate::Waits;
        }
    }
    fate
}

// Cancels the request, if it is the one of that number, and answers whether it is.
fn mark(pending: &mut Pending, id: i32) -> bool
    ensures named { result ≡ spec.is_named id pending.old }
    ensures cancelled { pending.new ≡ spec.cancelled_by id pending.old }
{
    let named = is_named(pending, id);
    if named {
        pending.fate = Fate::Cancelled;
    }
    named
}

// Whether the request is the one of that number: a repeat is none.
fn is_named(pending: &Pending, id: i32) -> bool
    ensures { result ≡ spec.is_named id pending.now }
{
    if matches!(pending.fate, Fate::Repeated) {
        return false;
    }
    i64::from(id) == i64::from(pending.ask.number())
}

// The requests in some bodies, up to the first that is no message, and what that one has wrong.
#[derive(Drop)]
struct Read {
    pub asks: Vec<Ask>,
    pub fault: Option<MessageError>,
}

// Reads the bodies that wait, up to the first that is no message.
fn read_asks(alloc: Global, unframer: &mut Unframer) -> Result<Read, AllocError>
    ensures read { IfOk result (λ r. (r.asks.items ≡ spec.asks_of unframer.old.waiting)
        × (r.fault ≡ spec.message_fault_of unframer.old.waiting)
        × (r.fault ≡ None → unframer.new.waiting ≡ [])) }
    ensures before { unframer.new.before ≡ unframer.old.before }
    ensures limit { unframer.new.limit ≡ unframer.old.limit }
    ensures tail { unframer.new.tail ≡ unframer.old.tail }
{
    let mut asks = Vec::new(alloc);
    while let Some(body) = unframer.next_body() {
        match read_request(alloc, body) {
            Ok(Incoming::Request(request)) => asks.push(Ask::Request(request))?,
            Ok(
                Incoming::Bad {
                    seq,
                    command,
                    refusal,
                },
            ) => asks.push(Ask::Bad {
                seq,
                command,
                refusal,
            })?,
            Ok(Incoming::Ignored) => {}
            Err(MessageError::NoMemory) => return Err(AllocError),
            Err(fault) => {
                return Ok(Read {
                    asks,
                    fault: Some(fault),
                });
            }
        }
    }
    Ok(Read { asks, fault: None })
}

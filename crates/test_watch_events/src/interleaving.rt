//! An editor that tells its mirror requests and feeds it bytes in turn, and what two mirrors know alike.

use crate::comparing::{FIRST_ADDRESS, LAST_ADDRESS, PATH, PLACES};
use facts::{BreakInfo, FrameInfo};
use framing::Unframer;
use mirror::Mirror;
use protocol::{Incoming, read_request};
use session::{Applied, Event, Session};
use std::alloc::Global;
use std::cmp;
use testing::{Fault, shown};

/// The most bytes that the body of a request may have.
const REQUEST_LIMIT: u32 = 1_048_576;

/// What an editor does on a connection: it tells a request once the piece with its last byte was accepted, and feeds the bytes as they are
/// queued, in pieces of this size at most, until it has fed `count`.
#[derive(Drop)]
pub(crate) struct Editor {
    alloc: Global,
    mirror: Mirror,
    requests: Unframer,
    connection: u32,
    left: usize,
    size: usize,
}

impl Editor {
    pub(crate) fn new(alloc: Global, connection: u32, count: usize, size: usize) -> Editor {
        Editor {
            alloc,
            mirror: Mirror::new(alloc),
            requests: Unframer::new(alloc, REQUEST_LIMIT),
            connection,
            left: count,
            size: cmp::max(size, 1),
        }
    }

    /// The mirror once the session has done the events.
    pub(crate) fn mirror(
        mut self,
        mut session: Session,
        events: &[Event],
    ) -> Result<Mirror, Fault> {
        let played = self.play(&mut session, events);
        drop(session);
        let Editor {
            mirror,
            requests,
            ..
        } = self;
        drop(requests);
        match played {
            Ok(()) => Ok(mirror),
            Err(fault) => {
                drop(mirror);
                Err(fault)
            }
        }
    }

    // Does the events in the session. One that is refused is passed over.
    fn play(&mut self, session: &mut Session, events: &[Event]) -> Result<(), Fault> {
        let mut current = 0;
        for event in events {
            let before = match event {
                Event::Turn(_) | Event::Slice(_) => session.waiting().len(),
                _ => usize::MAX,
            };
            let applied = session.apply(event);
            if let Ok(Applied::Connect(number)) = applied {
                current = number;
            }
            if current == self.connection && applied.is_ok() {
                if let Event::Recv(piece) = event {
                    self.tell(piece.as_slice())?;
                }
                let waiting = session.waiting();
                self.feed(&waiting[cmp::min(before, waiting.len())..])?;
            }
        }
        Ok(())
    }

    // The requests that a piece makes whole are told.
    fn tell(&mut self, piece: &[u8]) -> Result<(), Fault> {
        let _ = self.requests.feed(piece);
        for _ in 0..u64::MAX {
            let Some(body) = self.requests.next_body() else {
                break;
            };
            if let Ok(Incoming::Request(request)) = read_request(self.alloc, body) {
                let told = self.mirror.sent(&request);
                drop(request);
                told.map_err(|_| Fault::NoMemoryInCall)?;
            }
        }
        Ok(())
    }

    // The next bytes are fed, piece by piece.
    fn feed(&mut self, bytes: &[u8]) -> Result<(), Fault> {
        let mut rest = &bytes[..cmp::min(self.left, bytes.len())];
        self.left = self.left.saturating_sub(rest.len());
        for _ in 0..u64::MAX {
            if rest.is_empty() {
                break;
            }
            let (piece, others) = rest.split_at(cmp::min(self.size, rest.len()));
            self.mirror.feed(piece).map_err(|_| Fault::NoMemoryInCall)?;
            rest = others;
        }
        Ok(())
    }
}

/// How many facts both know, or the first kind in which they differ.
pub(crate) fn alike(alloc: Global, one: &Mirror, other: &Mirror) -> Result<String, Fault> {
    match count_alike(one, other) {
        Ok(count) => shown(alloc, count),
        Err(kind) => Ok(format!(in alloc; "{kind} is another")?),
    }
}

fn count_alike(one: &Mirror, other: &Mirror) -> Result<u32, &'static str> {
    if one.run() != other.run() {
        return Err("run");
    }
    let mut count = u32::from(one.run() != facts::RunState::Unknown);
    for place in 0..PLACES {
        let index = place as usize;
        let source = (
            one.source_break(PATH, index),
            other.source_break(PATH, index),
        );
        let at = (one.instruction_break(index), other.instruction_break(index));
        count = count.saturating_add(both_breaks(source.0, source.1)?);
        count = count.saturating_add(both_breaks(at.0, at.1)?);
        let of_functions = (one.function_break(index), other.function_break(index));
        count = count.saturating_add(both_breaks(of_functions.0, of_functions.1)?);
        count = count.saturating_add(both_frames(one.frame(place), other.frame(place))?);
        count = count.saturating_add(both_numbers(one.register(place), other.register(place))?);
    }
    for address in FIRST_ADDRESS..LAST_ADDRESS {
        let (known, also) = (one.byte(address), other.byte(address));
        count = count.saturating_add(both_numbers(known.map(u32::from), also.map(u32::from))?);
    }
    Ok(count)
}

fn both_breaks(one: Option<BreakInfo>, other: Option<BreakInfo>) -> Result<u32, &'static str> {
    if one == other {
        Ok(u32::from(one.is_some()))
    } else {
        Err("breakpoint")
    }
}

fn both_frames(one: Option<&FrameInfo>, other: Option<&FrameInfo>) -> Result<u32, &'static str> {
    match (one, other) {
        (None, None) => Ok(0),
        (Some(a), Some(b))
            if a.id == b.id && a.address == b.address && a.name.as_str() == b.name.as_str() => Ok(
            1,
        ),
        _ => Err("frame"),
    }
}

fn both_numbers(one: Option<u32>, other: Option<u32>) -> Result<u32, &'static str> {
    if one == other {
        Ok(u32::from(one.is_some()))
    } else {
        Err("register or byte")
    }
}

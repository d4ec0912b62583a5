//! What an editor knows, beside what could be seen.
ghost use Rattle.std.specs.Prelude.{◌≡◌, IfOk, OnOk};
ghost use Rattle.protocol.specs.Reading.{incoming_of};
ghost use Rattle.session_laws.specs.Messages.{IsPath};
ghost use Rattle.watch_events.specs.Private.Replaying as inner;
ghost use Rattle.watch_events.specs.Replaying.{Queues, Watches};
ghost use Rattle.watch_events.specs.Private.Replaying.{CountsQueued, IsTold, Mirrors, Runs, Shows, TellsAll, TellsBody, TellsOne};

use crate::bodies::bodies_of;
use crate::track::Track;
use mirror::{Mirror, MirrorError};
use protocol::{Incoming, MessageError, read_request};
use session::{Config, ConfigError, Event, Limits, Session, Snapshot};
use std::alloc::{AllocError, Global};
use thiserror::Error;

/// The most bytes that the body of a request may have.
const REQUEST_LIMIT: u32 = 1_048_576;

/// What an editor knows by the first bytes of a connection, and what could be seen.
#[derive(Drop)]
pub struct Watched {
    /// What it knows.
    pub mirror: Mirror,
    /// What could be seen when the last message was queued that lies wholly in these bytes; none where no message does.
    pub snapshot: Option<Snapshot>,
}

/// Why there is nothing to watch.
#[derive(Clone, Copy, Debug, PartialEq, Eq, Error)]
pub enum WatchError {
    /// There is no session of this.
    #[error("{0}")]
    Config(ConfigError),
    /// No connection was made that has this number.
    #[error("no such connection")]
    NoSuchConnection,
    /// Fewer bytes were queued.
    #[error("cut too long")]
    CutTooLong,
    /// No memory was left.
    #[error("no memory")]
    NoMemory,
}

/// Does events in a new session, and tells and feeds a mirror what an editor sent and got on the connection of this number, which
/// counts from 1: all requests that were accepted on it, and the first `count` of the bytes that were queued for it. An event that is
/// refused is passed over. The path of a program that is given has at most 1,048,576 bytes.
///
/// The errors apply in this order. `Config`: there is no session of this (`Session::new`). `NoSuchConnection`: fewer connections were
/// made, or the number is 0. `CutTooLong`: fewer bytes were queued. `NoMemory`, at any time: no memory was left.
pub fn watch(
    alloc: Global,
    config: Config,
    limits: Limits,
    events: &[Event],
    connection: u32,
    count: usize,
) -> Result<Watched, WatchError>
    requires { IsPath config.program }
    ensures { Watches config limits events.now connection count result }
{
    let track = replayed(alloc, config, limits, events, connection, count)?;
    shown(alloc, track, count)
}

// What an editor knows by the first bytes of the connection that was watched, `count` of them.
fn shown(alloc: Global, track: Track, count: usize) -> Result<Watched, WatchError>
    ensures { Shows track count result }
{
    match mirrored(alloc, &track, count) {
        Ok(mirror) => Ok(Watched {
            mirror,
            snapshot: track.into_snapshot(),
        }),
        Err(error) => {
            drop(track);
            Err(error)
        }
    }
}

// The mirror of that editor.
fn mirrored(alloc: Global, track: &Track, count: usize) -> Result<Mirror, WatchError>
    ensures { Mirrors track.now count result }
{
    if !track.is_made() {
        return Err(WatchError::NoSuchConnection);
    }
    if count > track.queued().len() {
        return Err(WatchError::CutTooLong);
    }
    match mirror_of(alloc, track.accepted(), &track.queued()[..count]) {
        Ok(mirror) => Ok(mirror),
        Err(_) => Err(WatchError::NoMemory),
    }
}

/// How many bytes these events queue for the connection of this number: the greatest `count` of `watch`. The errors are those of
/// `watch`, without `CutTooLong`.
pub fn queued(
    alloc: Global,
    config: Config,
    limits: Limits,
    events: &[Event],
    connection: u32,
) -> Result<usize, WatchError>
    requires { IsPath config.program }
    ensures { Queues config limits events.now connection result }
{
    let track = replayed(alloc, config, limits, events, connection, 0)?;
    let count = queued_in(&track);
    drop(track);
    count
}

// How many bytes were queued for the connection that was watched.
fn queued_in(track: &Track) -> Result<usize, WatchError>
    ensures { CountsQueued track.now result }
{
    if track.is_made() {
        Ok(track.queued().len())
    } else {
        Err(WatchError::NoSuchConnection)
    }
}

// Does events in a new session.
fn replayed(
    alloc: Global,
    config: Config,
    limits: Limits,
    events: &[Event],
    connection: u32,
    count: usize,
) -> Result<Track, WatchError>
    requires { IsPath config.program }
    ensures { Runs config limits events.now connection count result }
{
    let session = match Session::new(alloc, config, limits) {
        Ok(session) => session,
        Err(error) => return Err(no_session(error)),
    };
    let mut track = Track::new(alloc, session, connection, count);
    for event in events {
        match track.happen(event) {
            Ok(()) => {}
            Err(_) => {
                drop(track);
                return Err(WatchError::NoMemory);
            }
        }
    }
    Ok(track)
}

fn no_session(error: ConfigError) -> WatchError
    ensures { result ≡ inner.no_session error }
{
    match error {
        ConfigError::NoMemory => WatchError::NoMemory,
        _ => WatchError::Config(error),
    }
}

// A mirror that was told the requests in the bytes that came from an editor, and was fed the bytes that it got.
#[tactic(auto, using(crate::proofs::Telling::is_told))]
fn mirror_of(alloc: Global, accepted: &[u8], got: &[u8]) -> Result<Mirror, AllocError>
    ensures { IfOk result (λ mirror. IsTold accepted.now got.now mirror) }
{
    let mut mirror = Mirror::new(alloc);
    tell(alloc, &mut mirror, accepted)?;
    match mirror.feed(got) {
        Err(MirrorError::NoMemory) => Err(AllocError),
        _ => Ok(mirror),
    }
}

// Tells a mirror the requests in these bytes, up to the first body that is no message.
fn tell(alloc: Global, mirror: &mut Mirror, accepted: &[u8]) -> Result<(), AllocError>
    ensures { OnOk result (TellsAll mirror.old accepted.now mirror.new) }
{
    let mut unframer = bodies_of(alloc, REQUEST_LIMIT, accepted)?;
    while let Some(body) = unframer.next_body() {
        if !tell_body(alloc, mirror, body)? {
            return Ok(());
        }
    }
    Ok(())
}

// Tells a mirror the request that a body is, if it is one, and answers whether it is a message.
#[tactic(auto, using(crate::proofs::Telling::tells_ok, crate::proofs::Telling::tells_err))]
fn tell_body(alloc: Global, mirror: &mut Mirror, body: &[u8]) -> Result<bool, AllocError>
    ensures { IfOk result (λ is_message. TellsBody
        (incoming_of body.now) is_message mirror.old mirror.new) }
{
    match read_request(alloc, body) {
        Ok(incoming) => {
            tell_one(mirror, &incoming)?;
            Ok(true)
        }
        Err(MessageError::NoMemory) => Err(AllocError),
        Err(_) => Ok(false),
    }
}

// Tells a mirror a request, if this is one.
fn tell_one(mirror: &mut Mirror, incoming: &Incoming) -> Result<(), AllocError>
    ensures { OnOk result (TellsOne incoming.now mirror.old mirror.new) }
{
    match incoming {
        Incoming::Request(request) => match mirror.sent(request) {
            Err(MirrorError::NoMemory) => Err(AllocError),
            _ => Ok(()),
        },
        _ => Ok(()),
    }
}

//! Plays `mirror`, and `client` by `client`: requests that an editor sends, bytes that come, and what it may then know.
//!
//! - `new`: a mirror that nothing was told.
//! - `sent BODY`: the request that this body is.
//! - `feed BYTES`: a piece of the stream.
//! - a query by its name, with its arguments.
//! - `begin SIZE`: a client of a session with this much memory. `client CALL`: `send BODY`, `turn`, `turn FILE`, `slice N`, `take`, `last`,
//!   `pending`, `wants-file`, or a query of its mirror.
//! - `once CALL`: a call that is not made again where it found no memory, which is its answer then.
#![tactic(auto)]

mod following;

use following::Follower;
use mirror::{Mirror, MirrorError};
use protocol::{Incoming, MessageError, Request, read_request};
use std::alloc::Global;
use std::process::ExitCode;
use test_facts::{break_of, frame_of, value_of};
use testing::{Fault, Player, bytes_of, parsed, play, shown};

/// What is played. The first mirror was told nothing.
#[derive(Drop)]
struct Watcher {
    mirror: Mirror,
    follower: Follower,
}

fn main(rt: HostRuntime) -> ExitCode {
    let mirror = Mirror::new(rt.alloc());
    let follower = Follower::new();
    play(&rt, &mut Watcher { mirror, follower })
}

impl Player for Watcher {
    fn answer(&mut self, alloc: Global, arguments: &[&str]) -> Result<String, Fault> {
        match arguments {
            ["once", call @ ..] => match self.call(alloc, call) {
                Err(Fault::NoMemoryInCall) => shown(alloc, "NoMemory"),
                answer => answer,
            },
            call => self.call(alloc, call),
        }
    }
}

impl Watcher {
    fn call(&mut self, alloc: Global, arguments: &[&str]) -> Result<String, Fault> {
        match arguments {
            ["new"] => self.begin(alloc),
            ["sent", body] => self.sent(alloc, body),
            ["feed", piece] => self.feed(alloc, piece),
            ["begin", size] => self.follower.begin(alloc, size),
            ["client", call @ ..] => self.follower.call(alloc, call),
            other => query(alloc, &self.mirror, other),
        }
    }

    fn begin(&mut self, alloc: Global) -> Result<String, Fault> {
        self.mirror = Mirror::new(alloc);
        shown(alloc, "ok")
    }

    /// Tells a request.
    fn sent(&mut self, alloc: Global, body: &str) -> Result<String, Fault> {
        let request = request_of(alloc, body)?;
        done(alloc, self.mirror.sent(&request))
    }

    fn feed(&mut self, alloc: Global, piece: &str) -> Result<String, Fault> {
        let piece = bytes_of(alloc, piece)?;
        done(alloc, self.mirror.feed(&piece))
    }
}

/// What a mirror knows.
pub(crate) fn query(alloc: Global, mirror: &Mirror, arguments: &[&str]) -> Result<String, Fault> {
    match arguments {
        ["run"] => Ok(format!(in alloc; "{:?}", mirror.run())?),
        ["source_break", path, index] => {
            let index = parsed(index)?;
            break_of(alloc, mirror.source_break(path.as_bytes(), index))
        }
        ["instruction_break", index] => break_of(alloc, mirror.instruction_break(parsed(index)?)),
        ["function_break", index] => break_of(alloc, mirror.function_break(parsed(index)?)),
        ["frame", index] => frame_of(alloc, mirror.frame(parsed(index)?)),
        ["register", number] => value_of(alloc, mirror.register(parsed(number)?)),
        ["byte", address] => {
            let byte = mirror.byte(parsed(address)?);
            value_of(alloc, byte.map(u32::from))
        }
        _ => Err(Fault::NoCommand),
    }
}

/// The request that a body is.
pub(crate) fn request_of(alloc: Global, body: &str) -> Result<Request, Fault> {
    match read_request(alloc, &bytes_of(alloc, body)?) {
        Ok(Incoming::Request(request)) => Ok(request),
        Err(MessageError::NoMemory) => Err(Fault::NoMemory),
        _ => Err(Fault::NoCommand),
    }
}

fn done(alloc: Global, answer: Result<(), MirrorError>) -> Result<String, Fault> {
    match answer {
        Ok(()) => shown(alloc, "ok"),
        Err(MirrorError::NoMemory) => Err(Fault::NoMemoryInCall),
        Err(error) => Ok(format!(in alloc; "{error:?}: {error}")?),
    }
}

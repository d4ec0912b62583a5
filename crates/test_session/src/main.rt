//! Plays `session`: the events of a session, and what it says of itself.
//!
//! - `new SIZE SEQ REF RETIRED [PATH TEXT]`: a session with SIZE bytes of memory, these limits, and this program.
//! - an event by its name, with its arguments: `turn FILE` is given what a file holds. `apply EVENT` does the same.
//! - `slice_once MOVES`: a slice that is not made again where it found no memory.
//! - a query by its name; `seen QUERY` takes a snapshot, and asks that. `state` asks all of them.
//! - `tried EVENT`: an event that is not made again where it found no memory, as its answer says with all that is to be seen then;
//!   `again EVENT` makes it again there, and else does nothing.
#![tactic(auto)]

mod seen;
mod state;
mod texts;

use protocol::Text;
use session::{
    Applied, Bytes, Config, ConfigError, EventError, Limits, LinkFault, Session, SliceEnd,
};
use std::alloc::Global;
use std::process::ExitCode;
use test_events::event_of;
use testing::{Fault, Player, bytes_of, hexadecimal, parsed, play, shown};
use texts::text_of;

/// The memory of the first session, in bytes.
const MEMORY_SIZE: u32 = 1_048_576;

/// What is played. The first session has the greatest limits, and no program.
#[derive(Drop)]
struct Events {
    session: Session,
    /// How many moves a slice made that found no memory and comes again.
    moved: u32,
    /// Whether the event that was tried last found no memory.
    found_none: bool,
}

fn main(rt: HostRuntime) -> ExitCode {
    let config = Config {
        memory_size: MEMORY_SIZE,
        program: None,
    };
    match Session::new(rt.alloc(), config, Limits::greatest()) {
        Ok(session) => play(&rt, &mut new_events(session)),
        Err(_) => ExitCode::from(1),
    }
}

fn new_events(session: Session) -> Events {
    Events {
        session,
        moved: 0,
        found_none: false,
    }
}

impl Player for Events {
    fn answer(&mut self, alloc: Global, arguments: &[&str]) -> Result<String, Fault> {
        match arguments {
            ["new", size, last_seq, last_ref, last_retired, program @ ..] => {
                let limits = Limits {
                    last_seq: parsed(last_seq)?,
                    last_ref: parsed(last_ref)?,
                    last_retired: parsed(last_retired)?,
                };
                self.begin(alloc, config_of(alloc, size, program)?, limits)
            }
            ["greatest"] => Ok(format!(in alloc; "{:?}", Limits::greatest())?),
            ["text", kind, name] => text_of(alloc, kind, name),
            ["seen", query @ ..] => seen::seen(alloc, &self.session, query),
            ["state"] => state::state_of(alloc, &self.session),
            ["tried", event @ ..] => self.tried(alloc, event),
            ["again", event @ ..] => self.again(alloc, event),
            event => self.event(alloc, event),
        }
    }
}

impl Events {
    fn begin(&mut self, alloc: Global, config: Config, limits: Limits) -> Result<String, Fault> {
        match Session::new(alloc, config, limits) {
            Ok(session) => {
                self.session = session;
                shown(alloc, "ok")
            }
            Err(ConfigError::NoMemory) => Err(Fault::NoMemoryInCall),
            Err(error) => Ok(format!(in alloc; "{error:?}: {error}")?),
        }
    }

    fn event(&mut self, alloc: Global, arguments: &[&str]) -> Result<String, Fault> {
        match arguments {
            ["apply", event @ ..] => applied(alloc, self.session.apply(&event_of(alloc, event)?)),
            [name] => self.call(alloc, name),
            [name, argument] => self.call_with(alloc, name, argument),
            _ => Err(Fault::NoCommand),
        }
    }

    /// An event that is not made again where it found no memory: then the answer says how many moves it made, and what is to be
    /// seen.
    fn tried(&mut self, alloc: Global, arguments: &[&str]) -> Result<String, Fault> {
        match self.event(alloc, arguments) {
            Err(Fault::NoMemoryInCall) => {
                self.found_none = true;
                let state = state::state_of(alloc, &self.session)?;
                Ok(format!(in alloc; "NoMemory {} {state}", self.moved)?)
            }
            answer => answer,
        }
    }

    /// The event again, where it found no memory when it was tried.
    fn again(&mut self, alloc: Global, arguments: &[&str]) -> Result<String, Fault> {
        if !self.found_none {
            return shown(alloc, "-");
        }
        self.found_none = false;
        self.event(alloc, arguments)
    }

    /// A call without arguments.
    fn call(&mut self, alloc: Global, name: &str) -> Result<String, Fault> {
        match name {
            "connect" => match self.session.connect() {
                Ok(number) => shown(alloc, number),
                Err(error) => error_of(alloc, error),
            },
            "turn" => self.turn(alloc, None),
            "hold" => {
                self.session.hold();
                shown(alloc, "ok")
            }
            "drop" => done(alloc, self.session.drop_connection()),
            query => self.query(alloc, query),
        }
    }

    fn query(&self, alloc: Global, name: &str) -> Result<String, Fault> {
        match name {
            "waiting" => hexadecimal(alloc, self.session.waiting()),
            "pending" => shown(alloc, self.session.pending()),
            "runnable" => shown(alloc, self.session.runnable()),
            "wants_file" => shown(alloc, self.session.wants_file().unwrap_or("none")),
            "finished" => shown(alloc, self.session.finished()),
            "link_fault" => link_fault_of(alloc, self.session.link_fault()),
            _ => Err(Fault::NoCommand),
        }
    }

    fn call_with(&mut self, alloc: Global, name: &str, argument: &str) -> Result<String, Fault> {
        match name {
            "recv" => {
                let piece = bytes_of(alloc, argument)?;
                done(alloc, self.session.recv(&piece))
            }
            "turn" => {
                let file = bytes_of(alloc, argument)?;
                self.turn(alloc, Some(&file))
            }
            "slice" => self.slice(alloc, parsed(argument)?),
            "slice_once" => {
                let sliced = self.session.slice(parsed(argument)?);
                Ok(format!(in alloc; "{} {:?}", sliced.moved, sliced.ending)?)
            }
            "sent" => {
                let count = parsed(argument)?;
                done(alloc, self.session.sent(count))
            }
            "bytes" => {
                let bytes = Bytes::from_vec(bytes_of(alloc, argument)?);
                let text = hexadecimal(alloc, bytes.as_slice())?;
                let held = bytes.into_vec();
                Ok(format!(in alloc; "{text} {}", held.len())?)
            }
            _ => Err(Fault::NoCommand),
        }
    }

    fn turn(&mut self, alloc: Global, file: Option<&[u8]>) -> Result<String, Fault> {
        match self.session.turn(file) {
            Ok(turned) => Ok(format!(in alloc; "{turned:?}")?),
            Err(error) => error_of(alloc, error),
        }
    }

    /// A slice of these moves, without those that were made before no memory was found.
    fn slice(&mut self, alloc: Global, moves: u32) -> Result<String, Fault> {
        let sliced = self.session.slice(moves.saturating_sub(self.moved));
        let moved = self.moved.saturating_add(sliced.moved);
        if sliced.ending == SliceEnd::NoMemory {
            self.moved = moved;
            return Err(Fault::NoMemoryInCall);
        }
        self.moved = 0;
        Ok(format!(in alloc; "{moved} {:?}", sliced.ending)?)
    }
}

fn config_of(alloc: Global, size: &str, program: &[&str]) -> Result<Config, Fault> {
    let program = match program {
        [] => None,
        [path, text] => {
            let path = Text::from_string(String::from_str(alloc, path)?);
            Some((path, Bytes::from_vec(bytes_of(alloc, text)?)))
        }
        _ => return Err(Fault::NoCommand),
    };
    Ok(Config {
        memory_size: parsed(size)?,
        program,
    })
}

fn done(alloc: Global, answer: Result<(), EventError>) -> Result<String, Fault> {
    match answer {
        Ok(()) => shown(alloc, "ok"),
        Err(error) => error_of(alloc, error),
    }
}

fn applied(alloc: Global, answer: Result<Applied, EventError>) -> Result<String, Fault> {
    match answer {
        Ok(applied) => Ok(format!(in alloc; "{applied:?}")?),
        Err(error) => error_of(alloc, error),
    }
}

fn error_of(alloc: Global, error: EventError) -> Result<String, Fault> {
    match error {
        EventError::NoMemory => Err(Fault::NoMemoryInCall),
        error => Ok(format!(in alloc; "{error:?}")?),
    }
}

fn link_fault_of(alloc: Global, fault: Option<LinkFault>) -> Result<String, Fault> {
    match fault {
        Some(fault) => Ok(format!(in alloc; "{fault:?}")?),
        None => shown(alloc, "none"),
    }
}

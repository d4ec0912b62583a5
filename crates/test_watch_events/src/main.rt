//! Plays `watch_events`: events are listed, and then what is known of them is held against what could be seen.
//!
//! - `new SIZE [PATH TEXT]`: no events; a session has SIZE bytes of memory, and this program.
//! - an event by its name, with its arguments: it is listed, and the answer is how many are.
//! - `queued C`: how many bytes connection C gets of the events so far.
//! - `compare C N`: how many facts are known by these bytes, or the first that was not so.
//! - `interleave C N SIZE`: how many facts an editor knows that told the requests of connection C and fed N of its bytes in turn, in pieces of
//!   SIZE bytes, or the first that is not what is known where all requests were told first.
#![tactic(auto)]

ghost use Rattle.std.specs.Prelude.{◌≤◌, IfOk, length};
ghost use Rattle.std.specs.Str.{IsUtf8};
ghost use Rattle.session_laws.specs.Messages.{IsPath};

mod comparing;
mod interleaving;

use comparing::compared;
use interleaving::{Editor, alike};
use mirror::Mirror;
use protocol::Text;
use session::{Bytes, Config, Event, Limits, Session};
use std::alloc::{AllocError, Global};
use std::process::ExitCode;
use test_events::event_of;
use testing::{Fault, Player, bytes_of, parsed, play, shown};
use watch_events::{WatchError, Watched, queued, watch};

/// The most bytes of a program's path.
const LONGEST_PATH: usize = 1_048_576;

/// What is played.
#[derive(Drop)]
struct Events {
    size: u32,
    program: Option<(String, Vec<u8>)>,
    events: Vec<Event>,
}

fn main(rt: HostRuntime) -> ExitCode {
    let mut events = Events {
        size: 4_096,
        program: None,
        events: Vec::new(rt.alloc()),
    };
    play(&rt, &mut events)
}

impl Player for Events {
    fn answer(&mut self, alloc: Global, arguments: &[&str]) -> Result<String, Fault> {
        match arguments {
            ["new", size, program @ ..] => self.begin(alloc, size, program),
            ["queued", connection] => self.queued(alloc, parsed(connection)?),
            ["compare", connection, count] => {
                let found = self.watch(alloc, parsed(connection)?, parsed(count)?)?;
                compare(alloc, found)
            }
            ["interleave", connection, count, size] => {
                let (connection, count) = (parsed(connection)?, parsed(count)?);
                let size = parsed(size)?;
                match self.watch(alloc, connection, count)? {
                    Ok(watched) => {
                        let answer = self.interleave(alloc, connection, count, size, &watched);
                        drop(watched);
                        answer
                    }
                    Err(error) => error_of(alloc, error),
                }
            }
            event => self.list(alloc, event),
        }
    }
}

impl Events {
    fn begin(&mut self, alloc: Global, size: &str, program: &[&str]) -> Result<String, Fault> {
        self.program = match program {
            [] => None,
            [path, text] => Some((String::from_str(alloc, path)?, bytes_of(alloc, text)?)),
            _ => return Err(Fault::NoCommand),
        };
        self.size = parsed(size)?;
        self.events = Vec::new(alloc);
        shown(alloc, "ok")
    }

    fn list(&mut self, alloc: Global, arguments: &[&str]) -> Result<String, Fault> {
        let event = event_of(alloc, arguments)?;
        self.events.push(event).map_err(AllocError::from)?;
        shown(alloc, self.events.len())
    }

    fn queued(&self, alloc: Global, connection: u32) -> Result<String, Fault> {
        match queued(
            alloc,
            self.config(alloc)?,
            Limits::greatest(),
            &self.events,
            connection,
        ) {
            Ok(count) => shown(alloc, count),
            Err(error) => error_of(alloc, error),
        }
    }

    fn watch(
        &self,
        alloc: Global,
        connection: u32,
        count: usize,
    ) -> Result<Result<Watched, WatchError>, Fault> {
        let config = self.config(alloc)?;
        Ok(watch(
            alloc,
            config,
            Limits::greatest(),
            &self.events,
            connection,
            count,
        ))
    }

    fn interleave(
        &self,
        alloc: Global,
        connection: u32,
        count: usize,
        size: usize,
        watched: &Watched,
    ) -> Result<String, Fault> {
        let mirror = self.interleaved(alloc, connection, count, size)?;
        let answer = alike(alloc, &mirror, &watched.mirror);
        drop(mirror);
        answer
    }

    fn interleaved(
        &self,
        alloc: Global,
        connection: u32,
        count: usize,
        size: usize,
    ) -> Result<Mirror, Fault> {
        match Session::new(alloc, self.config(alloc)?, Limits::greatest()) {
            Ok(session) => Editor::new(alloc, connection, count, size).mirror(
                session,
                &self.events,
            ),
            Err(_) => Err(Fault::NoMemoryInCall),
        }
    }

    fn config(&self, alloc: Global) -> Result<Config, Fault>
        ensures { IfOk result (λ config. IsPath config.program) }
    {
        let program = match &self.program {
            None => None,
            Some((path, text)) => Some((path_of(path)?, Bytes::from_vec(text.clone()?))),
        };
        Ok(Config {
            memory_size: self.size,
            program,
        })
    }
}

// The path of a program. One that is longer than it may be is no command.
fn path_of(path: &String) -> Result<Text, Fault>
    ensures { IfOk result (λ path. IsUtf8 path × (length path ≤ 1048576)) }
{
    if path.as_bytes().len() > LONGEST_PATH {
        return Err(Fault::NoCommand);
    }
    let own = path.clone()?;
    Ok(Text::from_string(own))
}

fn compare(alloc: Global, found: Result<Watched, WatchError>) -> Result<String, Fault> {
    match found {
        Ok(watched) => {
            let answer = compared(alloc, &watched);
            drop(watched);
            answer
        }
        Err(error) => error_of(alloc, error),
    }
}

fn error_of(alloc: Global, error: WatchError) -> Result<String, Fault> {
    match error {
        WatchError::NoMemory => Err(Fault::NoMemoryInCall),
        error => Ok(format!(in alloc; "{error:?}: {error}")?),
    }
}

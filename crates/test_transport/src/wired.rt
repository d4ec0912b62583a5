//! A session over wires in memory, and over a door that lends them.

use crate::shelf::Shelf;
use session::{Config, EventError, Limits, Session};
use std::alloc::Global;
use testing::{Fault, bytes_of, called, hexadecimal, parsed, shown};
use transport::{DriveEnd, drive, serve};
use wires::{Door, Habits, MemoryDoor, MemoryWire, Visits, Wire};

/// A session, two wires and a file. At first the session is not connected, the wires have no piece, cannot
/// poll, take all at once, and do not fail.
#[derive(Drop)]
pub(crate) struct Wired {
    session: Session,
    wires: [MemoryWire; 2],
    files: Shelf,
}

impl Wired {
    pub(crate) fn new(alloc: Global) -> Result<Wired, Fault> {
        Ok(Wired {
            session: new_session(alloc)?,
            wires: new_wires(alloc),
            files: Shelf::new(alloc),
        })
    }

    /// Makes the call of the session, of the wire, or over it, that the words say.
    pub(crate) fn answer(&mut self, alloc: Global, words: &[&str]) -> Result<String, Fault> {
        match words {
            ["wire", words @ ..] => self.over_wire(alloc, words),
            ["fresh"] => {
                *self = Wired::new(alloc)?;
                shown(alloc, "ok")
            }
            ["file", path, bytes] => {
                self.files.path = path.to_string(alloc)?;
                self.files.text = bytes_of(alloc, bytes)?;
                shown(alloc, "ok")
            }
            ["reads"] => self.files.noted(alloc),
            ["recv", piece] => {
                let piece = bytes_of(alloc, piece)?;
                done(alloc, self.session.recv(&piece))
            }
            [name] => self.look(alloc, name),
            _ => Err(Fault::NoCommand),
        }
    }

    fn look(&mut self, alloc: Global, name: &str) -> Result<String, Fault> {
        match name {
            "connect" => match self.session.connect() {
                Ok(number) => shown(alloc, number),
                Err(error) => done(alloc, Err(error)),
            },
            "turn" => match self.session.turn(None) {
                Ok(turned) => Ok(format!(in alloc; "{turned:?}")?),
                Err(error) => done(alloc, Err(error)),
            },
            "waiting" => hexadecimal(alloc, self.session.waiting()),
            "pending" => shown(alloc, self.session.pending()),
            "link_fault" => match self.session.link_fault() {
                Some(fault) => Ok(format!(in alloc; "{fault:?}")?),
                None => shown(alloc, "none"),
            },
            "runnable" => shown(alloc, self.session.runnable()),
            _ => Err(Fault::NoCommand),
        }
    }

    fn over_wire(&mut self, alloc: Global, words: &[&str]) -> Result<String, Fault> {
        match words {
            ["new", polls, most, failing] => {
                self.wires[0] = MemoryWire::new(alloc, habits_of(polls, most, failing)?);
                shown(alloc, "ok")
            }
            ["piece"] => self.put(alloc, ""),
            ["piece", bytes] => self.put(alloc, bytes),
            ["drive", turns] => {
                let turns = parsed(turns)?;
                let end = self.driven(alloc, turns);
                Ok(format!(in alloc; "{end:?}")?)
            }
            ["other"] => {
                self.wires.swap(0, 1);
                shown(alloc, "ok")
            }
            ["serve", turns, nobody, failing] => {
                let turns = parsed(turns)?;
                let visits = Visits {
                    nobody: parsed(nobody)?,
                    failing: parsed(failing)?,
                };
                self.served(alloc, turns, visits)
            }
            ["whole", piece] => whole(alloc, piece),
            ["taken"] => hexadecimal(alloc, self.wires[0].taken()),
            ["faults"] => shown(alloc, self.wires[0].faults()),
            ["idle"] => shown(alloc, self.wires[0].idle()),
            ["waits"] => shown(alloc, self.wires[0].waits()),
            _ => Err(Fault::NoCommand),
        }
    }

    fn put(&mut self, alloc: Global, bytes: &str) -> Result<String, Fault> {
        let piece = bytes_of(alloc, bytes)?;
        called(self.wires[0].put(&piece))?;
        shown(alloc, "ok")
    }

    fn driven(&mut self, alloc: Global, turns: u64) -> DriveEnd {
        let wire = &mut self.wires[0];
        drive(alloc, &mut self.session, wire, &mut self.files, turns)
    }

    // Serves the connections of a door that lends both wires: how serving ended, how many of the door's calls
    // failed, how many polls of it accepted no wire, and how often it was waited for.
    fn served(&mut self, alloc: Global, turns: u64, visits: Visits) -> Result<String, Fault> {
        let mut door = MemoryDoor::new(&mut self.wires, visits);
        match serve(alloc, &mut self.session, &mut door, &mut self.files, turns) {
            DriveEnd::NoMemory => Err(Fault::NoMemoryInCall),
            end => {
                let (faults, idle, waits) = (door.faults(), door.idle(), door.waits());
                Ok(format!(in alloc; "{end:?} {faults} {idle} {waits}")?)
            }
        }
    }

    // Connects and drives to the end: how it ended, and what was taken. A wire in memory fails where it finds
    // none.
    fn driven_to_the_end(&mut self, alloc: Global) -> Result<String, Fault> {
        let _ = self.session.connect();
        match self.driven(alloc, u64::MAX) {
            DriveEnd::NoMemory | DriveEnd::Fault => Err(Fault::NoMemoryInCall),
            end => {
                let taken = hexadecimal(alloc, self.wires[0].taken())?;
                Ok(format!(in alloc; "{end:?} {taken}")?)
            }
        }
    }
}

fn new_session(alloc: Global) -> Result<Session, Fault> {
    let config = Config {
        memory_size: 1_048_576,
        program: None,
    };
    match Session::new(alloc, config, Limits::greatest()) {
        Ok(session) => Ok(session),
        Err(_) => Err(Fault::NoMemory),
    }
}

fn new_wires(alloc: Global) -> [MemoryWire; 2] {
    let habits = Habits {
        polls: false,
        most: usize::MAX,
        failing: 0,
    };
    [
        MemoryWire::new(alloc, habits),
        MemoryWire::new(alloc, habits),
    ]
}

fn habits_of(polls: &str, most: &str, failing: &str) -> Result<Habits, Fault> {
    Ok(Habits {
        polls: parsed(polls)?,
        most: parsed(most)?,
        failing: parsed(failing)?,
    })
}

fn done(alloc: Global, answer: Result<(), EventError>) -> Result<String, Fault> {
    match answer {
        Ok(()) => shown(alloc, "ok"),
        Err(EventError::NoMemory) => Err(Fault::NoMemoryInCall),
        Err(error) => Ok(format!(in alloc; "{error:?}")?),
    }
}

/// A session over a wire that has this piece, from its first byte to its end: how it ended, and what was
/// taken.
fn whole(alloc: Global, piece: &str) -> Result<String, Fault> {
    let mut wired = Wired::new(alloc)?;
    wired.put(alloc, piece)?;
    wired.driven_to_the_end(alloc)
}

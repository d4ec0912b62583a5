//! A session: one event after another.
ghost use Rattle.std.specs.Prelude.{◌≡◌, ◌≢◌, None, length, IfOk, OnErr, Result, Ok, Err, option_map};
ghost use Rattle.std.specs.Option.{option_copied};
ghost use Rattle.session.specs.declared.event.Event.TheVariants as event;
ghost use Rattle.session.specs.declared.event.Applied.TheVariants as applied;
ghost use Rattle.session.specs.Begins.{Begins};
ghost use Rattle.session.specs.Outcomes.{is_finished, wanted_on};
ghost use Rattle.session.specs.Slices.{is_runnable};
ghost use Rattle.session.specs.Sessions.{snapshot_of, start};
ghost use Rattle.snapshots.specs.Snapshots.{IsTaken};
ghost use Rattle.session.specs.Kept.{Happens, Stands, answered, see_kept};

use crate::config::{Config, ConfigError, first_program, is_size};
use crate::event::{Applied, Event, EventError, LinkFault, Sliced, Turned};
use crate::limits::Limits;
use crate::state::State;
use snapshots::Snapshot;
use std::alloc::{AllocError, Global};
use std::marker::Model;

/// A debug session: at most one editor is connected at a time, one after the other.
///
/// Whatever happens to it is one event: a call of `connect`, `recv`, `turn`, `slice`, `hold`, `sent` or
/// `drop_connection`. An event that is refused changes nothing, and neither does one that finds no
/// memory, so that it can be given again; a slice says how far it went. A contract sees what the session is now and the bytes that
/// wait; it represents a session with all of its past.
#[derive(Drop)]
pub struct Session {
    state: State,
}

impl Model for Session {
    ghost use Rattle.session.specs.Kept.{Kept};
    ghost use Rattle.std.specs.Coded.{codes};
    ghost use Rattle.breakpoints.specs.Codes.{coded_tree};

    ghost coded = { Prim.hlevel (codes, coded_tree) };

    ghost Value = { Kept };

    ghost view = { λ s. s.state };
}

#[tactic(auto, using(crate::proofs::Happening::happening, crate::proofs::Standing::begins))]
impl Session {
    /// A session to which nothing happened, with these limits and this much memory for a machine;
    /// and with a program, if one is given. The errors apply in this order: `BadMemorySize` where
    /// memory cannot have the size, `BadLimit` where a limit is 0 or above its greatest value,
    /// `Assembly` where the program has no image, `NoMemory` where no memory was left for the program; without one it takes none.
    pub fn new(alloc: Global, config: Config, limits: Limits) -> Result<Session, ConfigError>
        ensures { Begins config limits result }
    {
        if !is_size(config.memory_size) {
            return Err(ConfigError::BadMemorySize);
        }
        if !limits.are_right() {
            return Err(ConfigError::BadLimit);
        }
        let program = first_program(alloc, config.program, config.memory_size)?;
        Ok(Session {
            state: State::new(alloc, limits, config.memory_size, program),
        })
    }

    /// An editor connects. Answers the connection's number: 1, 2 and so on.
    ///
    /// `AlreadyConnected` where an editor is connected; `Spent` where 4,294,967,295 were. It takes no
    /// memory.
    pub fn connect(&mut self) -> Result<u32, EventError>
        ensures stands { Happens self.old event.Connect (answered applied.Connect result) self.new }
        ensures err { OnErr result (self.new ≡ self.old) }
        ensures takes_none { result ≡ Err EventError.NoMemory → ⊥ }
    {
        self.state.connect()
    }

    /// A piece of what the editor sends comes: up to 65,536 bytes, cut anywhere. Each request that it
    /// makes whole waits for its answer, and a `cancel` acts at once. What is no frame or no message
    /// closes the connection: what comes after it is dropped, and what came before it is still
    /// answered (base protocol).
    ///
    /// The errors apply in this order. `NotConnected`: no editor is connected. `Closing`: the
    /// connection takes nothing more. `PieceTooLong`: the piece has more than 65,536 bytes. `Busy`: 256
    /// requests or more wait. `NoMemory`: no memory was left.
    pub fn recv(&mut self, piece: &[u8]) -> Result<(), EventError>
        ensures stands { Happens self.old (event.Recv piece.now)
            (answered (λ _. applied.Recv) result) self.new }
        ensures err { OnErr result (self.new ≡ self.old) }
    {
        self.state.recv(piece)
    }

    /// Tells what the program owes, if it owes something; else answers the first request that waits,
    /// with the file that it names, if it names one (`wants_file`): `None` where that cannot be read.
    ///
    /// `Full` where more than 65,536 bytes wait to be sent, and else `Nothing` where no request waits;
    /// neither changes anything. The errors are `NotConnected` and `NoMemory`.
    pub fn turn(&mut self, file: Option<&[u8]>) -> Result<Turned, EventError>
        ensures stands { Happens self.old (event.Turn (option_copied file.entry))
            (answered applied.Turn result) self.new }
        ensures err { OnErr result (self.new ≡ self.old) }
    {
        self.state.turn(file)
    }

    /// Gives the program time for this many moves. First what it owes is told. It ends with `Stopped` or
    /// `Ended` where the program does; with `Idle` where there is nothing to do; with `Full` where more
    /// than 65,536 bytes wait to be sent; with `Spent` where all these moves were made; and with `NoMemory`
    /// where none was left: to tell what the program did, which is then owed; or for the next move, which stores into a page of zeros,
    /// or undoes such a store, and then that move was not made.
    pub fn slice(&mut self, moves: u32) -> Sliced
        ensures stands { Happens self.old (event.Slice moves) (Ok (applied.Slice result)) self.new }
    {
        self.state.slice(moves)
    }

    /// The program is to stand still before its next move, if it runs. It takes no memory.
    pub fn hold(&mut self)
        ensures stands { Happens self.old event.Hold (Ok applied.Hold) self.new }
    {
        self.state.hold()
    }

    /// The first `count` of the waiting bytes were sent, and wait no more.
    ///
    /// `NotConnected` where no editor is connected, and else `SentTooMuch` where fewer bytes wait. It
    /// takes no memory.
    pub fn sent(&mut self, count: usize) -> Result<(), EventError>
        ensures stands { Happens self.old (event.Sent count)
            (answered (λ _. applied.Sent) result) self.new }
        ensures err { OnErr result (self.new ≡ self.old) }
        ensures takes_none { result ≡ Err EventError.NoMemory → ⊥ }
    {
        self.state.sent(count)
    }

    /// The connection ends: what waits, requests and bytes, is dropped.
    ///
    /// `NotConnected` where no editor is connected. It takes no memory.
    pub fn drop_connection(&mut self) -> Result<(), EventError>
        ensures stands { Happens self.old event.DropConnection
            (answered (λ _. applied.DropConnection) result) self.new }
        ensures err { OnErr result (self.new ≡ self.old) }
        ensures takes_none { result ≡ Err EventError.NoMemory → ⊥ }
    {
        self.state.drop_connection()
    }

    /// Does the event named: the call of that name, with its arguments and its errors.
    pub fn apply(&mut self, event: &Event) -> Result<Applied, EventError>
        ensures stands { Happens self.old event.now result self.new }
        ensures err { OnErr result (self.new ≡ self.old) }
    {
        Ok(match event {
            Event::Connect => Applied::Connect(self.connect()?),
            Event::Recv(piece) => {
                self.recv(piece.as_slice())?;
                Applied::Recv
            }
            Event::Turn(file) => Applied::Turn(self.turn(file.as_ref().map(|f| f.as_slice()))?),
            Event::Slice(moves) => Applied::Slice(self.slice(*moves)),
            Event::Hold => {
                self.hold();
                Applied::Hold
            }
            Event::Sent(count) => {
                self.sent(*count)?;
                Applied::Sent
            }
            Event::DropConnection => {
                self.drop_connection()?;
                Applied::DropConnection
            }
        })
    }

    /// The bytes that wait to be sent. Without a connection none does.
    pub fn waiting(&self) -> &[u8]
        ensures { result.now ≡ self.now.waiting }
    {
        self.state.waiting()
    }

    /// How many requests wait for their answers.
    pub fn pending(&self) -> usize
        ensures { result ≡ length self.now.now.arrivals.pending }
    {
        self.state.pending()
    }

    /// Whether all is said on the connection: it takes nothing more, no request waits for its answer,
    /// and no byte waits to be sent. Without a connection it is not.
    pub fn finished(&self) -> bool
        ensures { result ≡ is_finished (see_kept self.now) }
    {
        self.state.finished()
    }

    /// Whether a slice would do something: a program runs, and its editor, if there is one, has said all.
    pub fn runnable(&self) -> bool
        ensures { result ≡ is_runnable self.now.now }
    {
        self.state.runnable()
    }

    /// The path of the file that the next answer wants, if it wants one: `turn` is to be given what it
    /// holds.
    pub fn wants_file(&self) -> Option<&str>
        ensures { option_map (λ path. path.now) result ≡ wanted_on self.now.now self.now.now.link }
    {
        self.state.wants_file()
    }

    /// A copy of all that an editor could be told now of the program that is debugged.
    ///
    /// `Err`: no memory was left. Where there is no program, it takes none.
    pub fn snapshot(&self) -> Result<Snapshot, AllocError>
        ensures ok { IfOk result (λ taken. IsTaken taken (snapshot_of self.now.now)) }
        ensures err { OnErr result (self.now.now.debuggee.program ≢ None) }
    {
        self.state.snapshot()
    }

    /// What closed the connection, if what came on it was no frame or no message. It is kept after the
    /// connection ended, until the next one.
    pub fn link_fault(&self) -> Option<LinkFault>
        ensures { result ≡ self.now.now.fault }
    {
        self.state.link_fault()
    }
}

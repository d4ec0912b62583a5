//! A client.
ghost use Rattle.std.specs.Prelude.{◌≡◌, IfOk, Ok, OnErr, OnOk, length, option_map, true};
ghost use Rattle.std.specs.Option.{option_copied};
ghost use Rattle.mirror.specs.Streams.{Past, StandsFor, messages_so_far, with_piece, with_request};
ghost use Rattle.requests.specs.Requests.{is_in_range, is_natural};
ghost use Rattle.session.specs.Kept.{answered};
ghost use Rattle.session.specs.Outcomes.{wanted_on};
ghost use Rattle.session.specs.declared.event.Applied.TheVariants as applied;
ghost use Rattle.session.specs.declared.event.Event.TheVariants as event;
ghost use Rattle.client.specs.Following as spec;

use crate::error::SendError;
use crate::messages::messages_in;
use framing::frame;
use mirror::{Mirror, MirrorError};
use protocol::{LAST_SEQ, Request};
use replies::Message;
use requests::{is_in_range, write_request};
use session::{Config, ConfigError, EventError, Limits, Session, Sliced, Turned};
use std::alloc::{AllocError, Global};
use std::marker::Model;

/// A client that is connected to a session. A contract sees what the session and the mirror keep, and the number of the last request.
#[derive(Drop)]
pub struct Client {
    alloc: Global,
    session: Session,
    mirror: Mirror,
    last: u32,
}

impl Model for Client {
    ghost use Rattle.breakpoints.specs.Codes.{coded_tree};
    ghost use Rattle.std.specs.Coded.{codes};
    ghost use Rattle.client.specs.Following.{Kept};

    ghost coded = { Prim.hlevel (codes, coded_tree) };

    ghost Value = { Kept };

    ghost view = { λ c. record { session = c.session; mirror = c.mirror; last = c.last } };
}

impl Client {
    /// A client of a new session, with this much memory for its program, in bytes.
    ///
    /// `BadMemorySize`: memory cannot have that size (a multiple of 4,096 from 4,096 to 16,777,216).
    pub fn new(alloc: Global, memory_size: u32) -> Result<Client, ConfigError>
        ensures { spec.Begins memory_size result }
    {
        let config = Config {
            memory_size,
            program: None,
        };
        let mut session = Session::new(alloc, config, Limits::greatest())?;
        let _ = session.connect();
        Ok(Client {
            alloc,
            session,
            mirror: Mirror::new(alloc),
            last: 0,
        })
    }

    /// The number of the last request; 0 before the first.
    pub fn last(&self) -> u32
        ensures { result ≡ self.now.last }
    {
        self.last
    }

    /// Sends a request, which then waits for its answer. Its number is above the last one.
    ///
    /// The errors apply in this order. `Number`: it is not, or above 2,147,483,647. `Range`: a number in it is outside its range.
    /// `NoMemory`: no memory was left. `Session`: the session does not take it (`Session::recv`). Where one of the last two applies, the
    /// number may be used up.
    pub fn send(&mut self, request: &Request) -> Result<(), SendError>
        ensures { spec.Sends request.now self.old result self.new }
    {
        if request.seq <= self.last || request.seq > LAST_SEQ {
            return Err(SendError::Number);
        }
        if !is_in_range(&request.command) {
            return Err(SendError::Range);
        }
        self.send_next(request)
    }

    // A request with a number that none had, and with numbers in their ranges.
    fn send_next(&mut self, request: &Request) -> Result<(), SendError>
        requires next { spec.IsNext request.now self.old.last }
        ensures { spec.Sends request.now self.old result self.new }
    {
        let piece = piece_of(self.alloc, request)?;
        self.push(request, &piece)
    }

    // The mirror is told a request, and the session gets its frame.
    fn push(&mut self, request: &Request, piece: &[u8]) -> Result<(), SendError>
        requires next { spec.IsNext request.now self.old.last }
        requires piece { spec.IsPiece request.now piece.now }
        ensures { spec.Pushes request.now piece.now self.old result self.new }
    {
        tell(&mut self.mirror, request)?;
        self.last = request.seq;
        sending(self.session.recv(piece))
    }

    /// Answers the first request that waits (`Session::turn`).
    pub fn turn(&mut self, file: Option<&[u8]>) -> Result<Turned, EventError>
        ensures { spec.Calls (event.Turn (option_copied file.entry))
            (answered applied.Turn result) self.old self.new }
    {
        self.session.turn(file)
    }

    /// Gives the program time for this many moves (`Session::slice`).
    pub fn slice(&mut self, moves: u32) -> Sliced
        ensures { spec.Calls (event.Slice moves) (Ok (applied.Slice result)) self.old self.new }
    {
        self.session.slice(moves)
    }

    /// The path of the file that the next answer wants, if it wants one.
    pub fn wants_file(&self) -> Option<&str>
        ensures { option_map (λ path. path.now) result ≡ wanted_on self.now.session.now self.now.session.now.link }
    {
        self.session.wants_file()
    }

    /// How many requests wait for their answers.
    pub fn pending(&self) -> usize
        ensures { result ≡ length self.now.session.now.arrivals.pending }
    {
        self.session.pending()
    }

    /// Takes the messages that wait, in order, and feeds them to the mirror. `Err`: no memory was left, and they still wait.
    pub fn take(&mut self) -> Result<Vec<Message>, AllocError>
        ensures messages { IfOk result (λ m. m.items ≡ messages_so_far self.old.session.waiting) }
        ensures goes { spec.Takes self.old result self.new }
    {
        let messages = messages_in(self.alloc, self.session.waiting())?;
        match self.feed() {
            Ok(()) => Ok(messages),
            Err(error) => {
                drop(messages);
                Err(error)
            }
        }
    }

    // The mirror is fed what waits, which waits no more.
    fn feed(&mut self) -> Result<(), AllocError>
        ensures { spec.Takes self.old result self.new }
    {
        feed(&mut self.mirror, self.session.waiting())?;
        let count = self.session.waiting().len();
        let _ = self.session.sent(count);
        Ok(())
    }

    /// The mirror, lent.
    pub fn mirror(&self) -> &Mirror
        ensures { result.now ≡ self.now.mirror }
    {
        &self.mirror
    }
}

// The frame of a request.
fn piece_of(alloc: Global, request: &Request) -> Result<Vec<u8>, AllocError>
    ensures { is_natural request.now.seq ≡ true → is_in_range request.now.command ≡ true
        → IfOk result (λ piece. spec.IsPiece request.now piece.items) }
{
    let text = write_request(alloc, request.seq, &request.command)?;
    frame(alloc, &text)
}

// Whether a piece was taken, as an answer to who sent it.
fn sending(answer: Result<(), EventError>) -> Result<(), SendError>
    ensures { result ≡ spec.sending answer }
{
    match answer {
        Ok(()) => Ok(()),
        Err(error) => Err(SendError::Session(error)),
    }
}

// A mirror is told a request.
fn tell(mirror: &mut Mirror, request: &Request) -> Result<(), AllocError>
    ensures ok { OnOk result ((past : Past) → StandsFor mirror.old past
        → StandsFor mirror.new (with_request past request.now)) }
    ensures err { OnErr result (mirror.new ≡ mirror.old) }
{
    match mirror.sent(request) {
        Err(MirrorError::NoMemory) => Err(AllocError),
        _ => Ok(()),
    }
}

// A mirror is fed a piece.
fn feed(mirror: &mut Mirror, piece: &[u8]) -> Result<(), AllocError>
    ensures ok { OnOk result ((past : Past) → StandsFor mirror.old past
        → StandsFor mirror.new (with_piece past piece.now)) }
    ensures err { OnErr result (mirror.new ≡ mirror.old) }
{
    match mirror.feed(piece) {
        Err(MirrorError::NoMemory) => Err(AllocError),
        _ => Ok(()),
    }
}

//! The conversation: what is kept of it, and its calls.
ghost use Rattle.std.specs.Prelude.{◌≡◌, [], Err, IfErr, IfOk, Ok, string_bytes};
ghost use Rattle.client.specs.Following.{Begins};
ghost use Rattle.mirror.specs.Kept.{facts_of};
ghost use Rattle.console.specs.Private.Pages.{pieces_of};
ghost use Rattle.console.specs.Screens.{IsTrue};

use crate::errand::Errand;
use crate::link::Link;
use crate::page::{Page, Screen, filled};
use crate::stop::Here;
use crate::stops::Breakpoint;
use crate::values::Display;
use image::Image;
use prompt::Motion;
use replies::Stopped;
use session::ConfigError;
use std::alloc::{AllocError, Global};

/// What a console waits for.
#[derive(Clone, Copy, Debug, PartialEq, Eq)]
pub enum Waits {
    /// A line (`Console::enter`).
    Line,
    /// Time for the program (`Console::run`), or a pause (`Console::pause`).
    Time,
    /// What the program's file holds now (`Console::launch`).
    File,
    /// Nothing more: it was told to end.
    Nothing,
}

/// How many registers there are, with pc.
pub(crate) const REGISTERS: usize = 33;

/// A conversation with somebody who debugs the program in a file.
#[derive(Drop)]
pub struct Console {
    pub(crate) alloc: Global,
    pub(crate) link: Link,
    pub(crate) path: String,
    pub(crate) memory_size: u32,
    pub(crate) text: Vec<u8>,
    pub(crate) image: Option<Image>,
    pub(crate) breakpoints: Vec<Breakpoint>,
    pub(crate) last_breakpoint: u32,
    pub(crate) displays: Vec<Display>,
    pub(crate) last_display: u32,
    /// The registers at the last stop.
    pub(crate) before: [Option<u32>; REGISTERS],
    /// Whether each had changed there.
    pub(crate) has_changed: [bool; REGISTERS],
    pub(crate) here: Option<Here>,
    pub(crate) stop: Option<Stopped>,
    pub(crate) has_ended: bool,
    pub(crate) errand: Errand,
    pub(crate) motion: Option<(Motion, u32)>,
    pub(crate) waits: Waits,
    pub(crate) was_refused: bool,
    pub(crate) page: Page,
}

impl Console {
    /// One for the program in the file of this path, with this much memory, in bytes. It waits for the file.
    ///
    /// `BadMemorySize`: memory cannot have that size (a multiple of 4,096 from 4,096 to 16,777,216).
    pub fn new(alloc: Global, path: String, memory_size: u32) -> Result<Console, ConfigError>
        ensures begins { IfOk result (λ console. Begins memory_size (Ok console.link)) }
        ensures path { IfOk result (λ console. string_bytes console.path ≡ string_bytes path) }
        ensures waits { IfOk result (λ console. console.waits ≡ Waits.File) }
        ensures err { IfErr result (λ why. Begins memory_size (Err why)) }
    {
        match Link::new(alloc, memory_size) {
            Ok(link) => Ok(begun(alloc, link, path, memory_size)),
            Err(error) => {
                drop(path);
                Err(error)
            }
        }
    }

    /// What it waits for.
    pub fn waits(&self) -> Waits
        ensures { result ≡ self.now.waits }
    {
        self.waits
    }

    /// Whether the last line was refused, or something that it led to.
    pub fn was_refused(&self) -> bool
        ensures { result ≡ self.now.was_refused }
    {
        self.was_refused
    }

    /// Launches the program whose text this is, from its beginning, and shows where it stands. The breakpoints that were set are set
    /// again. It fails where no memory is left.
    pub fn launch(&mut self, text: &[u8]) -> Result<Screen, AllocError>
        ensures { IfOk result (λ screen.
            IsTrue self.new.link (string_bytes self.new.path) screen.pieces.items) }
    {
        self.begin(text)?;
        self.shown()
    }

    /// Takes a line, without its line feed, and shows what it asks for. It fails where no memory is left.
    pub fn enter(&mut self, line: &[u8]) -> Result<Screen, AllocError>
        ensures { IfOk result (λ screen.
            IsTrue self.new.link (string_bytes self.new.path) screen.pieces.items) }
    {
        self.obey(line)?;
        self.shown()
    }

    /// Gives the program time for this many moves, and shows what it printed and, if it stops, where. It fails where no memory is left.
    pub fn run(&mut self, moves: u32) -> Result<Screen, AllocError>
        ensures { IfOk result (λ screen.
            IsTrue self.new.link (string_bytes self.new.path) screen.pieces.items) }
    {
        self.go(moves)?;
        self.shown()
    }

    /// Asks the program to stop before its next instruction, if it runs. It fails where no memory is left.
    pub fn pause(&mut self) -> Result<Screen, AllocError>
        ensures { IfOk result (λ screen.
            IsTrue self.new.link (string_bytes self.new.path) screen.pieces.items) }
    {
        self.interrupt()?;
        self.shown()
    }

    // What is to be shown, with the facts that the mirror has. It waits no more.
    fn shown(&mut self) -> Result<Screen, AllocError>
        ensures is_true { IfOk result (λ screen.
            IsTrue self.new.link (string_bytes self.new.path) screen.pieces.items) }
        ensures pieces { IfOk result (λ screen. screen.pieces.items ≡ pieces_of
            (string_bytes self.new.path) (facts_of self.new.link.mirror.known)
            self.old.page.parts.items) }
        ensures left { self.new.page.parts.items ≡ [] }
    {
        let parts = self.page.take();
        filled(self.alloc, self.link.mirror(), self.path.as_bytes(), parts)
    }
}

fn begun(alloc: Global, link: Link, path: String, memory_size: u32) -> Console
    ensures link { result.link ≡ link }
    ensures path { string_bytes result.path ≡ string_bytes path }
    ensures waits { result.waits ≡ Waits.File }
{
    Console {
        alloc,
        link,
        path,
        memory_size,
        text: Vec::new(alloc),
        image: None,
        breakpoints: Vec::new(alloc),
        last_breakpoint: 0,
        displays: Vec::new(alloc),
        last_display: 0,
        before: [None; REGISTERS],
        has_changed: [false; REGISTERS],
        here: None,
        stop: None,
        has_ended: false,
        errand: Errand::Nothing,
        motion: None,
        waits: Waits::File,
        was_refused: false,
        page: Page::new(alloc),
    }
}

//! A page: words, and places for facts, which are filled in from a mirror.
ghost use Rattle.std.specs.Prelude.{◌≡◌, ◌∷◌, ◌++◌, [], IfErr, IfOk, OnOk, slice_get};
ghost use Rattle.mirror.specs.Kept.{facts_of};
ghost use Rattle.console.specs.Private.Pages as spec;
ghost use Rattle.console.specs.Screens.{listed};

use crate::piece::{Form, Listed, Piece, Tone};
use facts::BreakInfo;
use mirror::Mirror;
use std::alloc::{AllocError, Global};
use std::mem;

// The last address at which a word fits.
const LAST_WORD: u32 = 0xffff_fffc;

/// A part of a page: words, or the place of a fact.
#[derive(Drop)]
pub(crate) enum Part {
    Words(Tone, String),
    Run,
    Register(Form, u32),
    Word(u32),
    Byte(u32),
    Frame(u32),
    Break(Listed, usize),
}

/// What is to be shown.
#[derive(Drop)]
pub(crate) struct Page {
    alloc: Global,
    parts: Vec<Part>,
}

impl Page {
    /// An empty one. It takes no memory.
    pub(crate) fn new(alloc: Global) -> Page
        ensures { result.parts.items ≡ [] }
    {
        Page {
            alloc,
            parts: Vec::new(alloc),
        }
    }

    /// Words are added. It fails where no memory is left, and then they are not.
    pub(crate) fn say(&mut self, tone: Tone, words: &str) -> Result<(), AllocError>
        ensures words { OnOk result (spec.HaveWords tone words.now
            self.old.parts.items self.new.parts.items) }
        ensures on_error { IfErr result (λ e. self.new.parts.items ≡ self.old.parts.items) }
    {
        let words = String::from_str(self.alloc, words)?;
        self.put(Part::Words(tone, words))
    }

    /// A part is added. It fails where no memory is left, and then it is not.
    pub(crate) fn put(&mut self, part: Part) -> Result<(), AllocError>
        ensures part { OnOk result (self.new.parts.items ≡ self.old.parts.items ++ part ∷ []) }
        ensures on_error { IfErr result (λ e. self.new.parts.items ≡ self.old.parts.items) }
    {
        self.parts.push(part)?;
        Ok(())
    }

    /// The parts, which are its no more.
    pub(crate) fn take(&mut self) -> Vec<Part>
        ensures parts { result.items ≡ self.old.parts.items }
        ensures left { self.new.parts.items ≡ [] }
    {
        mem::replace(&mut self.parts, Vec::new(self.alloc))
    }
}

/// What is shown, piece by piece.
#[derive(Drop)]
pub struct Screen {
    pieces: Vec<Piece>,
}

impl Screen {
    /// The pieces, in order.
    pub fn pieces(&self) -> &[Piece]
        ensures { result.now ≡ self.now.pieces.items }
    {
        self.pieces.as_slice()
    }
}

/// The parts of a page with the facts that a mirror has, for the program in the file of this path. It fails where no memory is left.
pub(crate) fn filled(
    alloc: Global,
    mirror: &Mirror,
    path: &[u8],
    parts: Vec<Part>,
) -> Result<Screen, AllocError>
    ensures { IfOk result (λ screen. screen.pieces.items
        ≡ spec.pieces_of path.now (facts_of mirror.now.known) parts.items) }
{
    let known = Known { mirror, path };
    let mut pieces = Vec::new(alloc);
    for part in parts {
        pieces.push(known.piece(part)?)?;
    }
    Ok(Screen { pieces })
}

/// What fills the places for facts.
#[derive(Clone, Copy)]
struct Known<'a> {
    mirror: &'a Mirror,
    path: &'a [u8],
}

impl Known<'_> {
    // The piece that a part becomes.
    fn piece(&self, part: Part) -> Result<Piece, AllocError>
        ensures { IfOk result (λ it.
            it ≡ spec.piece_of self.now.path.now (facts_of self.now.mirror.now.known) part) }
    {
        match part {
            Part::Words(tone, words) => Ok(Piece::Words(tone, words)),
            Part::Run => Ok(Piece::Run(self.mirror.run())),
            Part::Register(form, number) => Ok(self.register(form, number)),
            Part::Word(address) => Ok(self.word(address)),
            Part::Byte(address) => Ok(self.byte(address)),
            Part::Frame(index) => self.frame(index),
            Part::Break(list, index) => Ok(self.found(list, index)),
        }
    }

    fn register(&self, form: Form, number: u32) -> Piece
        ensures { result ≡ spec.piece_of
            self.now.path.now (facts_of self.now.mirror.now.known) (Part.Register form number) }
    {
        match self.mirror.register(number) {
            Some(value) => Piece::Register(form, number, value),
            None => Piece::Unknown,
        }
    }

    fn word(&self, address: u32) -> Piece
        ensures { result ≡ spec.piece_of
            self.now.path.now (facts_of self.now.mirror.now.known) (Part.Word address) }
    {
        match word_at(self.mirror, address) {
            Some((first, second, third, fourth)) => {
                Piece::Word(address, first, second, third, fourth)
            }
            None => Piece::Unknown,
        }
    }

    fn byte(&self, address: u32) -> Piece
        ensures { result ≡ spec.piece_of
            self.now.path.now (facts_of self.now.mirror.now.known) (Part.Byte address) }
    {
        match self.mirror.byte(address) {
            Some(value) => Piece::Byte(address, value),
            None => Piece::Unknown,
        }
    }

    fn frame(&self, index: u32) -> Result<Piece, AllocError>
        ensures { IfOk result (λ it. it ≡ spec.piece_of
            self.now.path.now (facts_of self.now.mirror.now.known) (Part.Frame index)) }
    {
        match self.mirror.frame(index) {
            Some(frame) => Ok(Piece::Frame(index, frame.clone()?)),
            None => Ok(Piece::Unknown),
        }
    }

    fn found(&self, list: Listed, index: usize) -> Piece
        ensures { result ≡ spec.piece_of
            self.now.path.now (facts_of self.now.mirror.now.known) (Part.Break list index) }
    {
        match break_in(self.mirror, self.path, list, index) {
            Some(found) => Piece::Break(list, index, found),
            None => Piece::Unknown,
        }
    }
}

/// The bytes of the word at an address, if all are known.
pub(crate) fn word_at(mirror: &Mirror, address: u32) -> Option<(u8, u8, u8, u8)>
    ensures { result ≡ spec.word_at (facts_of mirror.now.known) address }
{
    if address > LAST_WORD {
        return None;
    }
    Some((
        mirror.byte(address)?,
        mirror.byte(address + 1)?,
        mirror.byte(address + 2)?,
        mirror.byte(address + 3)?,
    ))
}

// The breakpoint at an index of a list, if it is known.
fn break_in(mirror: &Mirror, path: &[u8], list: Listed, index: usize) -> Option<BreakInfo>
    ensures { result ≡ slice_get (listed path.now (facts_of mirror.now.known) list) index }
{
    match list {
        Listed::Source => mirror.source_break(path, index),
        Listed::Instructions => mirror.instruction_break(index),
        Listed::Functions => mirror.function_break(index),
    }
}

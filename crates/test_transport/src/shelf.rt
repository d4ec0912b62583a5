//! Files in memory.
ghost use Rattle.std.specs.Prelude.{◌≡◌, ◌++◌, ◌∷◌, [], Some, IfOk, OnOk, OnErr};
ghost use Rattle.std.specs.Option.{option_map};
ghost use Rattle.transport.specs.Files.{IsShort};

use session::Bytes;
use std::alloc::{AllocError, Global};
use std::marker::Model;
use testing::{Fault, Line};
use transport::{FileFault, Files, LONGEST_TEXT};

/// A read that was answered: the path, and what the file there held, if there was one. A contract sees it
/// as a `FileRead`.
#[derive(Drop)]
struct Note {
    path: String,
    gave: Option<Bytes>,
}

impl Model for Note {
    ghost use Rattle.std.specs.Prelude.{string_bytes};
    ghost use Rattle.transport.specs.Files.{FileRead};

    ghost Value = { FileRead };

    ghost view = { λ n. record { path = string_bytes n.path; gave = n.gave } };
}

/// One file, at first an empty one without a name, and a note of each read that was answered.
#[derive(Drop)]
pub(crate) struct Shelf {
    pub path: String,
    pub text: Vec<u8>,
    notes: Vec<Note>,
}

impl Shelf {
    pub(crate) fn new(alloc: Global) -> Shelf {
        Shelf {
            path: String::new(alloc),
            text: Vec::new(alloc),
            notes: Vec::new(alloc),
        }
    }

    /// The reads that were answered, each with its path and what it gave.
    pub(crate) fn noted(&self, alloc: Global) -> Result<String, Fault> {
        let mut line = Line::new(alloc);
        for note in &self.notes {
            add_note_to(&mut line, note)?;
        }
        Ok(line.into_string())
    }

    // What the file at a path holds now, if there is one.
    fn find(&self, alloc: Global, path: &str) -> Result<Option<Bytes>, AllocError>
        ensures { IfOk result IsShort }
    {
        if path != self.path.as_str() || self.text.len() > LONGEST_TEXT {
            return Ok(None);
        }
        Ok(Some(copied(alloc, &self.text)?))
    }
}

impl Files for Shelf {
    ghost past = { λ s. Some s.notes.items };

    fn read(&mut self, alloc: Global, path: &str) -> Result<Bytes, FileFault> {
        let found = self.find(alloc, path)?;
        let gave = match &found {
            Some(text) => Some(copied(alloc, text.as_slice())?),
            None => None,
        };
        let note = note_of(alloc, path, gave)?;
        add_note(&mut self.notes, note)?;
        found.ok_or(FileFault::Unreadable)
    }
}

fn copied(alloc: Global, text: &[u8]) -> Result<Bytes, AllocError>
    ensures { IfOk result (λ copy. copy ≡ text.now) }
{
    let mut copy = Vec::new(alloc);
    copy.extend_from_slice(text)?;
    Ok(Bytes::from_vec(copy))
}

fn note_of(alloc: Global, path: &str, gave: Option<Bytes>) -> Result<Note, AllocError>
    ensures { IfOk result (λ note. note ≡ record { path = path.now; gave = gave }) }
{
    Ok(Note {
        path: String::from_str(alloc, path)?,
        gave,
    })
}

fn add_note(notes: &mut Vec<Note>, note: Note) -> Result<(), AllocError>
    ensures ok { OnOk result (notes.new.items ≡ notes.old.items ++ note ∷ []) }
    ensures err { OnErr result (notes.new.items ≡ notes.old.items) }
{
    notes.push(note)?;
    Ok(())
}

fn add_note_to(line: &mut Line, note: &Note) -> Result<(), Fault> {
    line.word(note.path.as_str())?;
    match &note.gave {
        Some(text) => line.bytes(text.as_slice()),
        None => line.word("none"),
    }
}

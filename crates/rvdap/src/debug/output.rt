//! Standard output, where all is shown.
ghost use Rattle.std.specs.Prelude.{◌≡◌, ◌++◌, IfOk, OnOk, string_bytes};
ghost use Rattle.rvdap.specs.Colours as spec;

use crate::debug::colours::{Colours, colours_of, push_coloured};
use crate::debug::origins::{Origin, Peer, echo_of, end_of, peer_of, prompt_of};
use blocking_io::{Waiting, write_whole};
use commands::ExitReason;
use console::{Piece, Screen, Tone};
use std::alloc::{AllocError, Global};
use std::env;
use std::env::VarError;

/// Standard output: what it leads to, and whether it has colours. What is to be shown at once is written at once.
#[derive(Clone, Copy)]
pub(crate) struct Output<'a> {
    rt: &'a HostRuntime,
    peer: Peer,
    colours: Colours,
}

impl<'a> Output<'a> {
    /// Standard output. The error is that no memory was left.
    pub(crate) fn new(rt: &'a HostRuntime) -> Result<Output<'a>, ExitReason> {
        let peer = peer_of(&rt.stdout());
        let refused = refuses_colours(rt)?;
        Ok(Output {
            rt,
            peer,
            colours: colours_of(peer, refused),
        })
    }

    /// Shows a screen.
    pub(crate) fn show(self, screen: Result<Screen, AllocError>) -> Result<(), ExitReason> {
        match screen {
            Ok(screen) => {
                let text = text_of(self.rt.alloc(), screen.pieces(), self.colours);
                drop(screen);
                self.write_text(text)
            }
            Err(_) => Err(ExitReason::NoMemory),
        }
    }

    /// Says why something was not done.
    pub(crate) fn refuse(self, words: &str) -> Result<(), ExitReason> {
        let mut text = String::new(self.rt.alloc());
        match push_coloured(&mut text, self.colours, Tone::Refusal, words) {
            Ok(()) => self.write(text.as_bytes()),
            Err(_) => Err(ExitReason::NoMemory),
        }
    }

    /// Asks for a line from there.
    pub(crate) fn ask(self, origin: Origin) -> Result<(), ExitReason> {
        self.write(prompt_of(origin, self.peer).as_bytes())
    }

    /// Shows a line that came from there.
    pub(crate) fn echo(self, origin: Origin, line: &[u8]) -> Result<(), ExitReason> {
        match echo_of(self.rt.alloc(), origin, line) {
            Ok(text) => self.write(text.as_slice()),
            Err(_) => Err(ExitReason::NoMemory),
        }
    }

    /// Shows that no line comes from there any more.
    pub(crate) fn end(self, origin: Origin) -> Result<(), ExitReason> {
        self.write(end_of(origin, self.peer).as_bytes())
    }

    fn write(self, text: &[u8]) -> Result<(), ExitReason> {
        match write_whole(&mut Waiting::new(self.rt.stdout()), text) {
            Ok(()) => Ok(()),
            Err(_) => Err(ExitReason::ReadOrWriteFault),
        }
    }

    fn write_text(self, text: Result<String, AllocError>) -> Result<(), ExitReason> {
        match text {
            Ok(text) => self.write(text.as_bytes()),
            Err(_) => Err(ExitReason::NoMemory),
        }
    }
}

// Whether NO_COLOR is set and not empty.
fn refuses_colours(rt: &HostRuntime) -> Result<bool, ExitReason> {
    match env::var(rt, "NO_COLOR") {
        Ok(value) => Ok(!value.is_empty()),
        Err(VarError::NotPresent) => Ok(false),
        Err(VarError::NotUnicode) => Ok(true),
        Err(VarError::OutOfMemory) => Err(ExitReason::NoMemory),
    }
}

// What is written for pieces.
fn text_of(alloc: Global, pieces: &[Piece], colours: Colours) -> Result<String, AllocError>
    ensures { IfOk result (λ text. string_bytes text ≡ spec.written colours pieces.now) }
{
    let mut text = String::new(alloc);
    for piece in pieces {
        push_piece(alloc, &mut text, piece, colours)?;
    }
    Ok(text)
}

fn push_piece(
    alloc: Global,
    text: &mut String,
    piece: &Piece,
    colours: Colours,
) -> Result<(), AllocError>
    ensures { OnOk result (string_bytes text.new ≡ string_bytes text.old
        ++ spec.written_of colours piece.now) }
{
    let words = piece.text(alloc)?;
    push_coloured(text, colours, piece.tone(), words.as_str())
}

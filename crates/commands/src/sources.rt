//! The texts of a program, in one file or several.

ghost use Rattle.std.specs.Prelude.{◌≡◌};

use crate::text_file::{NoText, text_in};
use diagnostics::line_at;
use execution::{joined, place_in};
use image::Bytes;
use options::Text;
use std::alloc::AllocError;

/// The texts of a program, and how their files are called.
#[derive(Drop)]
pub(crate) struct Sources<'a> {
    first: &'a str,
    others: &'a [Text],
    texts: Vec<Bytes>,
    whole: Vec<u8>,
}

/// Why there are none.
pub(crate) enum NoSources<'a> {
    /// This file can't be read, or is too long.
    Unreadable(&'a str),
    /// No memory was left.
    NoMemory,
}

impl<'a> From<AllocError> for NoSources<'a> {
    ghost use Rattle.commands.specs.declared.sources.NoSources.TheVariants.{NoMemory};

    ghost from_gives = { λ _ fault. fault ≡ NoMemory };

    fn from(_: AllocError) -> NoSources<'a> {
        NoSources::NoMemory
    }
}

/// A line of one of the texts.
#[derive(Clone, Copy)]
pub(crate) struct Place<'a> {
    /// How the file is called.
    pub file: &'a str,
    /// Its text.
    pub text: &'a [u8],
    /// The number of the line, or 0.
    pub line: u32,
}

/// What files hold, the first and the others.
pub(crate) fn sources_in<'a>(
    rt: &HostRuntime,
    first: &'a str,
    others: &'a [Text],
) -> Result<Sources<'a>, NoSources<'a>> {
    let mut texts = Vec::new(rt.alloc());
    push_text(&mut texts, bytes_in(rt, first)?)?;
    for other in others {
        push_text(&mut texts, bytes_in(rt, other.as_str())?)?;
    }
    let whole = joined(rt.alloc(), texts.as_slice())?;
    Ok(Sources {
        first,
        others,
        texts,
        whole,
    })
}

// A text after others.
fn push_text(texts: &mut Vec<Bytes>, text: Bytes) -> Result<(), AllocError> {
    match texts.push(text) {
        Ok(()) => Ok(()),
        Err(_) => Err(AllocError),
    }
}

fn bytes_in<'a>(rt: &HostRuntime, file: &'a str) -> Result<Bytes, NoSources<'a>> {
    match text_in(rt, file) {
        Ok(text) => Ok(Bytes::from_vec(text)),
        Err(NoText::Unreadable) => Err(NoSources::Unreadable(file)),
        Err(NoText::NoMemory) => Err(NoSources::NoMemory),
    }
}

impl<'a> Sources<'a> {
    /// The texts one after the other; each begins on a line of its own.
    pub(crate) fn whole(&self) -> &[u8] {
        self.whole.as_slice()
    }

    /// Where a line of the whole stands.
    pub(crate) fn place(&self, line: u32) -> Place<'_> {
        let (index, line) = place_in(self.texts.as_slice(), line);
        let text = match self.texts.get(index) {
            Some(text) => text.as_slice(),
            None => &[],
        };
        Place {
            file: self.name(index),
            text,
            line,
        }
    }

    // How the file of a text is called.
    fn name(&self, index: usize) -> &str {
        if index == 0 {
            return self.first;
        }
        match self.others.get(index - 1) {
            Some(other) => other.as_str(),
            None => self.first,
        }
    }
}

impl<'a> Place<'a> {
    /// The number of the line, if there is one.
    pub(crate) fn number(&self) -> Option<u32> {
        if self.line == 0 {
            None
        } else {
            Some(self.line)
        }
    }

    /// The line itself, if there is one.
    pub(crate) fn source(&self) -> Option<&'a str> {
        line_at(self.text, self.line)
    }
}

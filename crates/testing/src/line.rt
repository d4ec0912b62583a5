//! An answer that is made word by word.
ghost use Rattle.std.specs.Prelude.{◌≡◌, OnOk, string_bytes};
ghost use Rattle.hex.specs.Hex.{encode_lower};
ghost use Rattle.testing.specs.Words.{and_word, no_words};

use crate::{Fault, hexadecimal};
use std::alloc::Global;
use std::fmt::{Debug, Display};
use std::marker::Model;

/// An answer that is made word by word, with a space between two words. Each call that adds one fails
/// where no memory is left.
#[derive(Drop)]
pub struct Line {
    alloc: Global,
    text: String,
    is_begun: bool,
}

impl Model for Line {
    ghost use Rattle.std.specs.Prelude.{string_bytes};
    ghost use Rattle.testing.specs.Words.{Words};

    ghost Value = { Words };

    ghost view = { λ l. record { text = string_bytes l.text; is_begun = l.is_begun } };
}

impl Line {
    /// An answer without a word. It takes no memory.
    pub fn new(alloc: Global) -> Line
        ensures { result ≡ no_words }
    {
        Line {
            alloc,
            text: String::new(alloc),
            is_begun: false,
        }
    }

    /// Adds a word as it is spelled.
    pub fn word(&mut self, word: &str) -> Result<(), Fault>
        ensures { OnOk result (self.new ≡ and_word word.now self.old) }
    {
        if self.is_begun {
            self.text.push(' ')?;
        }
        self.is_begun = true;
        self.text.push_str(word)?;
        Ok(())
    }

    /// Adds a value as it is displayed.
    pub fn value<D: Display + Drop>(&mut self, value: D) -> Result<(), Fault> {
        self.word(value.to_string(self.alloc)?.as_str())
    }

    /// Adds the name of a variant.
    pub fn name<D: Debug + Drop>(&mut self, variant: D) -> Result<(), Fault> {
        let alloc = self.alloc;
        self.word(format!(in alloc; "{variant:?}")?.as_str())
    }

    /// Adds a value as it is displayed, or `none`.
    pub fn optional<D: Display + Drop>(&mut self, value: Option<D>) -> Result<(), Fault> {
        match value {
            Some(value) => self.value(value),
            None => self.word("none"),
        }
    }

    /// Adds bytes as pairs of hexadecimal digits in lower case: a word of no digits where there are none.
    pub fn bytes(&mut self, bytes: &[u8]) -> Result<(), Fault>
        ensures { OnOk result (self.new ≡ and_word (encode_lower bytes.now) self.old) }
    {
        self.word(hexadecimal(self.alloc, bytes)?.as_str())
    }

    /// The answer, its words with a space between two. It takes no memory.
    pub fn into_string(self) -> String
        ensures { string_bytes result ≡ self.text }
    {
        let Line { text, .. } = self;
        text
    }
}

//! What a command line asks for.
ghost use Rattle.std.specs.Prelude.{◌≡◌, [], IfOk, map};

use std::alloc::{AllocError, Global};
use std::marker::Model;

/// What the program is to do.
#[derive(Clone, Copy, Debug, PartialEq, Eq)]
pub enum Mode {
    /// Serve editors.
    Serve,
    /// List the instructions of a file.
    Asm,
    /// Play a script, and print what is watched.
    Watch,
    /// Play a script, and print the conversation.
    Replay,
    /// Run the program in a file.
    Run,
    /// Debug the program in a file, by commands.
    Debug,
    /// Tell the errors of each of some files.
    Check,
    /// Tell the labels of a file.
    Labels,
    /// Convert a file of another assembler.
    Convert,
}

/// How a program is run, and what is told of its run.
#[derive(Clone, Copy, Debug, PartialEq, Eq)]
pub struct RunOptions {
    /// How many instructions may run; `None`: as many as it likes.
    pub limit: Option<u32>,
    /// How many bytes may be printed; `None`: as many as it likes.
    pub output_limit: Option<u32>,
    /// How many of the last instructions are told; `None`: none.
    pub trace: Option<u32>,
    /// Whether it is said how many instructions retired.
    pub count: bool,
    /// Whether the registers are told at the end.
    pub registers: bool,
}

impl RunOptions {
    /// How a program is run where nothing is said of it: without limits, and nothing else is told.
    pub(crate) const PLAIN: RunOptions = RunOptions {
        limit: None,
        output_limit: None,
        trace: None,
        count: false,
        registers: false,
    };
}

/// What is watched of a script, and what is told of its conversation.
#[derive(Clone, Copy, Debug, PartialEq, Eq)]
pub struct PlayOptions {
    /// The connection that is watched; `None`: the last line of the script says it.
    pub connection: Option<u32>,
    /// How many bytes for it are watched; `None`: all.
    pub bytes: Option<u32>,
    /// The first event that is told; `None`: that of the first line.
    pub from: Option<u32>,
    /// The last event that is told; `None`: that of the last line.
    pub to: Option<u32>,
    /// Whether it is told after each message what an editor knows then.
    pub facts: bool,
}

impl PlayOptions {
    /// How a script is played where nothing is said of it: whole, and nothing else is told.
    pub(crate) const PLAIN: PlayOptions = PlayOptions {
        connection: None,
        bytes: None,
        from: None,
        to: None,
        facts: false,
    };
}

/// What a command line asks for.
#[derive(Debug, Drop)]
pub struct Options {
    /// What the program is to do.
    pub mode: Mode,
    /// The file of a command: the first where there may be several, and the script that is played.
    pub file: Option<Text>,
    /// The files after the first, where there may be several.
    pub others: Texts,
    /// The address to listen on, where editors are not served over standard streams.
    pub listen: Option<Text>,
    /// The file of the program whose machine an editor joins by `attach`.
    pub program: Option<Text>,
    /// Whether the program ends after the first connection.
    pub once: bool,
    /// Whether it is told on standard error what goes wrong on a connection.
    pub verbose: bool,
    /// The folder in which the session is recorded, if it is.
    pub recording: Option<Text>,
    /// The memory of a machine, in KiB: a multiple of 4, from 4 to 16,384.
    pub memory: u32,
    /// How a program is run.
    pub run: RunOptions,
    /// How a script is played.
    pub play: PlayOptions,
    /// Whether errors and labels are told as JSON.
    pub json: bool,
    /// The file of the commands that come first, where a program is debugged.
    pub commands: Option<Text>,
}

/// A text of a command line. A contract sees it as the list of its bytes, which are UTF-8.
#[derive(Debug, Drop)]
pub struct Text {
    string: String,
}

impl Model for Text {
    ghost use Rattle.std.specs.Prelude.{List, ℕ, string_bytes};

    ghost Value = { List ℕ };

    ghost view = { λ t. string_bytes t.string };
}

impl Text {
    /// A copy of a text. It fails where no memory is left.
    pub(crate) fn of(alloc: Global, text: &str) -> Result<Text, AllocError>
        ensures { IfOk result (λ copy. copy ≡ text.now) }
    {
        Ok(Text {
            string: String::from_str(alloc, text)?,
        })
    }

    /// The text, lent.
    pub fn as_str(&self) -> &str
        ensures { result.now ≡ self.now }
    {
        self.string.as_str()
    }
}

/// Texts of a command line. A contract sees them as a list.
#[derive(Debug, Drop)]
pub struct Texts {
    texts: Vec<Text>,
}

impl Model for Texts {
    ghost use Rattle.std.specs.Prelude.{List, ℕ};

    ghost Value = { List (List ℕ) };

    ghost view = { λ t. t.texts.items };
}

impl Texts {
    /// None.
    pub(crate) fn none(alloc: Global) -> Texts
        ensures { result ≡ [] }
    {
        Texts {
            texts: Vec::new(alloc),
        }
    }

    /// Copies of some texts. It fails where no memory is left.
    pub(crate) fn of(alloc: Global, texts: &[&str]) -> Result<Texts, AllocError>
        ensures { IfOk result (λ copies. copies ≡ map (λ t. t.now) texts.now) }
    {
        let mut copies = Vec::new(alloc);
        for text in texts {
            copies.push(Text::of(alloc, text)?)?;
        }
        Ok(Texts { texts: copies })
    }

    /// The texts, lent.
    pub fn as_slice(&self) -> &[Text]
        ensures { result.now ≡ self.now }
    {
        self.texts.as_slice()
    }
}

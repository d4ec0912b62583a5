//! Plays `options`. A command line comes as words after the command, each as pairs of hexadecimal digits.
//!
//! - `options WORDS..`: what `options` answers: the options, or why there are none.
//! - `tried WORDS..`: what `try_options` answers: the options, or the stream that its message is printed to.
//! - `message WORDS..`: that message, byte by byte.
//! - `names TEXT WORDS..`: whether that message has a text.
//! - `text NAME`: the text of the error of this name.
#![tactic(auto)]

use clap::Error;
use clap::error::ErrorKind;
use options::{Mode, Options, Text, Usage, options, try_options};
use std::alloc::{AllocError, Global};
use std::process::ExitCode;
use std::str;
use testing::{Fault, Line, Player, bytes_of, hexadecimal, play, shown};

/// What is played: it keeps nothing.
#[derive(Drop)]
struct Reader {
    lines: u64,
}

fn main(rt: HostRuntime) -> ExitCode {
    play(&rt, &mut Reader { lines: 0 })
}

impl Player for Reader {
    fn answer(&mut self, alloc: Global, arguments: &[&str]) -> Result<String, Fault> {
        self.lines = self.lines.saturating_add(1);
        match arguments {
            ["options", words @ ..] => answered(alloc, &words_of(alloc, words)?),
            ["tried", words @ ..] => tried(alloc, &words_of(alloc, words)?),
            ["message", words @ ..] => {
                let message = message_on(alloc, &words_of(alloc, words)?)?;
                hexadecimal(alloc, message.as_bytes())
            }
            ["names", text, words @ ..] => {
                let text = word_of(alloc, text)?;
                let message = message_on(alloc, &words_of(alloc, words)?)?;
                shown(alloc, message.contains(text.as_str()))
            }
            ["text", "Words"] => shown(alloc, Usage::Words),
            ["text", "NoMemory"] => shown(alloc, Usage::NoMemory),
            _ => Err(Fault::NoCommand),
        }
    }
}

fn words_of(alloc: Global, arguments: &[&str]) -> Result<Vec<String>, Fault> {
    let mut words = Vec::new(alloc);
    for argument in arguments {
        add_word(&mut words, word_of(alloc, argument)?)?;
    }
    Ok(words)
}

fn add_word(words: &mut Vec<String>, word: String) -> Result<(), AllocError> {
    words.push(word)?;
    Ok(())
}

fn word_of(alloc: Global, argument: &str) -> Result<String, Fault> {
    let bytes = bytes_of(alloc, argument)?;
    let text = str::from_utf8(&bytes).map_err(|_| Fault::NoCommand)?;
    Ok(String::from_str(alloc, text)?)
}

fn answered(alloc: Global, words: &[String]) -> Result<String, Fault> {
    match options(alloc, words) {
        Ok(options) => told(alloc, &options),
        Err(Usage::Words) => shown(alloc, "Words"),
        Err(Usage::NoMemory) => Err(Fault::NoMemoryInCall),
    }
}

fn tried(alloc: Global, words: &[String]) -> Result<String, Fault> {
    match try_options(alloc, words) {
        Ok(options) => told(alloc, &options),
        Err(error) => stream_of(alloc, &error),
    }
}

fn stream_of(alloc: Global, error: &Error) -> Result<String, Fault> {
    if error.kind() == ErrorKind::OutOfMemory {
        return Err(Fault::NoMemoryInCall);
    }
    if error.use_stderr() {
        shown(alloc, "stderr")
    } else {
        shown(alloc, "stdout")
    }
}

/// The message where words have one; words that ask for options are no command here.
fn message_on(alloc: Global, words: &[String]) -> Result<String, Fault> {
    match try_options(alloc, words) {
        Ok(_options) => Err(Fault::NoCommand),
        Err(error) => message_of(alloc, error),
    }
}

fn message_of(alloc: Global, error: Error) -> Result<String, Fault> {
    if error.kind() == ErrorKind::OutOfMemory {
        return Err(Fault::NoMemoryInCall);
    }
    shown(alloc, error)
}

fn told(alloc: Global, options: &Options) -> Result<String, Fault> {
    let mut line = Line::new(alloc);
    line.word(match options.mode {
        Mode::Serve => "serve",
        Mode::Asm => "asm",
        Mode::Watch => "watch",
        Mode::Replay => "replay",
        Mode::Run => "run",
        Mode::Debug => "debug",
        Mode::Check => "check",
        Mode::Labels => "labels",
        Mode::Convert => "convert",
    })?;
    add_text(&mut line, options.file.as_ref())?;
    add_text(&mut line, options.listen.as_ref())?;
    add_text(&mut line, options.program.as_ref())?;
    line.value(options.once)?;
    line.value(options.verbose)?;
    line.value(options.memory)?;
    line.optional(options.run.limit)?;
    line.optional(options.run.output_limit)?;
    line.optional(options.run.trace)?;
    line.value(options.run.count)?;
    line.value(options.run.registers)?;
    line.value(options.json)?;
    add_text(&mut line, options.recording.as_ref())?;
    line.optional(options.play.connection)?;
    line.optional(options.play.bytes)?;
    line.optional(options.play.from)?;
    line.optional(options.play.to)?;
    line.value(options.play.facts)?;
    add_text(&mut line, options.commands.as_ref())?;
    add_others(&mut line, options.others.as_slice())?;
    Ok(line.into_string())
}

fn add_others(line: &mut Line, others: &[Text]) -> Result<(), Fault> {
    line.value(others.len())?;
    for other in others {
        line.bytes(other.as_str().as_bytes())?;
    }
    Ok(())
}

fn add_text(line: &mut Line, text: Option<&Text>) -> Result<(), Fault> {
    match text {
        Some(text) => line.bytes(text.as_str().as_bytes()),
        None => line.word("none"),
    }
}

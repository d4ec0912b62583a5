//! The words that the program is given.
ghost use Rattle.std.specs.Prelude.{◌≡◌, IfOk, MatchResult};
ghost use Rattle.options.specs.Options.{IsConsistent};

use crate::ending::{say, write_text};
use crate::exit_reason::ExitReason;
use blocking_io::Waiting;
use clap::error::ErrorKind;
use options::{Options, try_options};
use std::rt::Env;
use std::{env, io};

/// Why the program does nothing more.
#[derive(Clone, Copy, Debug, PartialEq, Eq)]
pub enum Unasked {
    /// Something was printed, and this is the status.
    Printed(u8),
    /// It was not, or no memory was left.
    Failed(ExitReason),
}

/// What the program is asked for. `--help` and `--version` are answered on standard output, with status 0, unless that fails; words
/// that are not taken are a fault of usage, reported on standard error, with status 2.
pub fn options_of(rt: &HostRuntime) -> Result<Options, Unasked>
    ensures { IfOk result IsConsistent }
{
    match words_of(rt) {
        Ok(words) => asked(rt, &words),
        Err(error) => Err(unreadable(rt, &error)),
    }
}

fn asked(rt: &HostRuntime, words: &[String]) -> Result<Options, Unasked>
    ensures { IfOk result IsConsistent }
{
    match try_options(rt.alloc(), words) {
        Ok(options) => Ok(options),
        Err(error) => Err(printed(rt, error)),
    }
}

// Prints what clap has to say: help and the version, or what is wrong with the words.
fn printed(rt: &HostRuntime, error: clap::Error) -> Unasked {
    if error.kind() == ErrorKind::OutOfMemory {
        return Unasked::Failed(ExitReason::NoMemory);
    }
    if error.use_stderr() {
        say(rt, error);
        return Unasked::Printed(2);
    }
    let mut output = Waiting::new(rt.stdout());
    shown(write_text(rt.alloc(), &mut output, error))
}

// How printing help or the version ended.
fn shown(written: io::Result<()>) -> Unasked
    ensures { MatchResult written (λ _. result ≡ Unasked.Printed 0)
        (λ _. result ≡ Unasked.Failed ExitReason.ReadOrWriteFault) }
{
    match written {
        Ok(()) => Unasked::Printed(0),
        Err(_) => Unasked::Failed(ExitReason::ReadOrWriteFault),
    }
}

// The words after the program's name.
fn words_of(rt: &HostRuntime) -> io::Result<Vec<String>> {
    let words = env::args(rt)?.skip(1).collect(rt.alloc())?;
    Ok(words)
}

fn unreadable(rt: &HostRuntime, error: &io::Error) -> Unasked {
    if error.kind() == io::ErrorKind::OutOfMemory {
        return Unasked::Failed(ExitReason::NoMemory);
    }
    say(rt, format_args!("rvdap: {error}\n"));
    Unasked::Printed(2)
}

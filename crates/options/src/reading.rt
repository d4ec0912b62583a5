//! What the words after the program's name ask for.
ghost use Rattle.std.specs.Prelude.{◌≡◌, IfOk, map, string_bytes};
ghost use Rattle.clap.specs.Words.{app_of};
ghost use Rattle.options.specs.CommandLine.{command_line};
ghost use Rattle.options.specs.Options.{Answers, IsConsistent, Tells, asked};

use crate::asked::Options;
use crate::command::command;
use crate::fault::error_of;
use crate::rules;
use crate::usage::Usage;
use clap::error::ErrorKind;
use clap::{Command, Error};
use std::alloc::Global;

/// What the words after the program's name ask for:
///
/// - `[--memory KIB] [--verbose] [--record FOLDER]`: editors are served over standard streams,
/// - `--listen ADDR [--program FILE] [--once] [--memory KIB] [--verbose] [--record FOLDER]`: or over TCP,
/// - `asm FILE`, `labels [--json] FILE`, `check [--json] FILE..`: the instructions, labels or errors of files are told,
/// - `run [--memory KIB] [--limit N] [--output-limit BYTES] [--count] [--registers] [--trace N] FILE..`: a program is run,
/// - `debug [--memory KIB] [-x SCRIPT] FILE`: a program is debugged, by commands,
/// - `convert FILE`: a file of another assembler is converted,
/// - `watch SCRIPT [C [N]]`, `replay [--from N] [--to N] [--facts] SCRIPT`: what a script's editor knows, or its conversation, is printed.
///
/// `Words`: they are none of these, or ask for help or the version. `NoMemory`: no memory was left.
pub fn options(alloc: Global, words: &[String]) -> Result<Options, Usage>
    ensures answers { Answers result (asked (map string_bytes words.now)) }
    ensures consistent { IfOk result IsConsistent }
{
    match try_options(alloc, words) {
        Ok(options) => Ok(options),
        Err(error) if error.kind() == ErrorKind::OutOfMemory => Err(Usage::NoMemory),
        Err(_) => Err(Usage::Words),
    }
}

/// The options that these words ask for, or why there are none, in clap's form: what the program prints,
/// help and the version too. The kind of such an error is `OutOfMemory` where no memory was left.
pub fn try_options(alloc: Global, words: &[String]) -> Result<Options, Error>
    ensures answers { Tells result (asked (map string_bytes words.now)) }
    ensures consistent { IfOk result IsConsistent }
{
    let mut command = command(alloc)?;
    let options = options_by(alloc, &mut command, words);
    drop(command);
    options
}

// The options that these words ask for, by what clap makes of them.
fn options_by<'a>(
    alloc: Global,
    command: &mut Command<'a>,
    words: &'a [String],
) -> Result<Options, Error>
    requires { app_of command.old ≡ command_line }
    ensures answers { Tells result (asked (map string_bytes words.now)) }
    ensures consistent { IfOk result IsConsistent }
{
    let matches = command.try_get_matches_from_mut(words)?;
    let asked = rules::asked(alloc, &matches);
    drop(matches);
    match asked {
        Ok(options) => Ok(options),
        Err(fault) => Err(error_of(alloc, command, fault)),
    }
}

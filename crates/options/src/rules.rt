//! What clap's matches ask for, by the rules on what stands beside what.
ghost use Rattle.std.specs.Prelude.{◌≡◌, IfErr, IfOk, Some, None, codes, map};
ghost use Rattle.std.specs.Option.{option_map};
ghost use Rattle.clap.specs.Words.{all_of, first_of, found_of, rows_of, subcommand_rows_of};
ghost use Rattle.options.specs.Options as spec;
ghost use Rattle.options.specs.Private.Broken.{Finds, kind_of_fault};
ghost use Rattle.options.specs.Memory.{kib_for};

use crate::asked::{Mode, Options, PlayOptions, RunOptions, Text, Texts};
use crate::fault::Fault;
use crate::given::{all_given, given, is_set};
use crate::limit::limit_for;
use crate::memory::{DEFAULT_MEMORY, memory_for};
use clap::ArgMatches;
use clap::error::ErrorKind;
use std::alloc::{AllocError, Global};

/// What matches ask for.
pub(crate) fn asked<'a>(alloc: Global, matches: &ArgMatches<'a>) -> Result<Options, Fault<'a>>
    ensures { Finds result (spec.asked_of (rows_of (found_of matches.now))
        (subcommand_rows_of matches.now)) }
{
    match matches.subcommand() {
        Some(_) if has_option(matches) => Err(Fault::BesideCommand),
        Some((name, inner)) => commanded(alloc, name, inner),
        None => served(alloc, matches),
    }
}

// Whether an option is given.
fn has_option(matches: &ArgMatches<'_>) -> bool
    ensures { result ≡ spec.has_option (rows_of (found_of matches.now)) }
{
    given(matches, "memory").is_some()
        || given(matches, "listen").is_some()
        || given(matches, "program").is_some()
        || is_set(matches, "once")
        || is_set(matches, "verbose")
        || given(matches, "record").is_some()
}

// What the command of a name asks for.
fn commanded<'a>(alloc: Global, name: &str, matches: &ArgMatches<'a>) -> Result<Options, Fault<'a>>
    ensures { Finds result (spec.commanded name.now (rows_of (found_of matches.now))) }
{
    if name == "asm" {
        running(alloc, Mode::Asm, given(matches, "FILE"))
    } else if name == "run" {
        executed(alloc, matches)
    } else if name == "check" {
        checking(alloc, is_set(matches, "json"), all_given(matches, "FILE"))
    } else if name == "labels" {
        labelling(alloc, is_set(matches, "json"), given(matches, "FILE"))
    } else if name == "convert" {
        running(alloc, Mode::Convert, given(matches, "FILE"))
    } else if name == "replay" {
        played(alloc, Mode::Replay, matches)
    } else if name == "debug" {
        debugged(alloc, matches)
    } else {
        played(alloc, Mode::Watch, matches)
    }
}

// A command with its file, and nothing else.
fn with_file(alloc: Global, mode: Mode, file: &str) -> Result<Options, AllocError>
    ensures { IfOk result (λ options. options ≡ spec.with_file mode file.now) }
{
    Ok(Options {
        mode,
        file: Some(Text::of(alloc, file)?),
        others: Texts::none(alloc),
        listen: None,
        program: None,
        once: false,
        verbose: false,
        recording: None,
        memory: DEFAULT_MEMORY,
        run: RunOptions::PLAIN,
        play: PlayOptions::PLAIN,
        json: false,
        commands: None,
    })
}

fn running<'a>(alloc: Global, mode: Mode, file: Option<&str>) -> Result<Options, Fault<'a>>
    ensures { Finds result (spec.running mode (option_map (λ t. t.now) file.entry)) }
{
    let Some(file) = file else {
        return Err(Fault::WithoutFile);
    };
    Ok(with_file(alloc, mode, file)?)
}

// A program is run.
fn executed<'a>(alloc: Global, matches: &ArgMatches<'a>) -> Result<Options, Fault<'a>>
    ensures { Finds result (spec.executing
        (kib_for (first_of (codes "memory") (rows_of (found_of matches.now))))
        (spec.run_of (rows_of (found_of matches.now)))
        (all_of (codes "FILE") (rows_of (found_of matches.now)))) }
{
    let memory = match memory_for(given(matches, "memory")) {
        Ok(memory) => memory,
        Err(text) => return Err(Fault::Memory(text)),
    };
    match run_of(matches) {
        Ok(run) => executing(alloc, memory, run, all_given(matches, "FILE")),
        Err(fault) => Err(fault),
    }
}

// How a program is run.
fn run_of<'a>(matches: &ArgMatches<'a>) -> Result<RunOptions, Fault<'a>>
    ensures ok { IfOk result (λ run. spec.run_of (rows_of (found_of matches.now)) ≡ Some run) }
    ensures err { IfErr result (λ fault. spec.run_of (rows_of (found_of matches.now)) ≡ None) }
    ensures bad { IfErr result (λ fault. kind_of_fault fault ≡ ErrorKind.ValueValidation) }
{
    let limit = match limit_for(given(matches, "limit")) {
        Ok(limit) => limit,
        Err(text) => return Err(Fault::Number("--limit <N>", text)),
    };
    let output_limit = match limit_for(given(matches, "output-limit")) {
        Ok(limit) => limit,
        Err(text) => return Err(Fault::Number("--output-limit <BYTES>", text)),
    };
    match limit_for(given(matches, "trace")) {
        Ok(trace) => Ok(RunOptions {
            limit,
            output_limit,
            trace,
            count: is_set(matches, "count"),
            registers: is_set(matches, "registers"),
        }),
        Err(text) => Err(Fault::Number("--trace <N>", text)),
    }
}

fn executing<'a>(
    alloc: Global,
    memory: u32,
    run: RunOptions,
    files: Option<&[&str]>,
) -> Result<Options, Fault<'a>>
    ensures { Finds result (spec.executing (Some memory) (Some run)
        (option_map (λ s. map (λ t. t.now) s.now) files.entry)) }
{
    match files {
        Some([file, more @ ..]) => Ok(Options {
            memory,
            run,
            others: Texts::of(alloc, more)?,
            ..with_file(alloc, Mode::Run, file)?
        }),
        _ => Err(Fault::WithoutFile),
    }
}

// A program is debugged.
fn debugged<'a>(alloc: Global, matches: &ArgMatches<'a>) -> Result<Options, Fault<'a>>
    ensures { Finds result (spec.debugging
        (kib_for (first_of (codes "memory") (rows_of (found_of matches.now))))
        (first_of (codes "commands") (rows_of (found_of matches.now)))
        (first_of (codes "FILE") (rows_of (found_of matches.now)))) }
{
    let memory = match memory_for(given(matches, "memory")) {
        Ok(memory) => memory,
        Err(text) => return Err(Fault::Memory(text)),
    };
    let commands = given(matches, "commands");
    debugging(alloc, memory, commands, given(matches, "FILE"))
}

fn debugging<'a>(
    alloc: Global,
    memory: u32,
    commands: Option<&str>,
    file: Option<&str>,
) -> Result<Options, Fault<'a>>
    ensures { Finds result (spec.debugging (Some memory)
        (option_map (λ t. t.now) commands.entry) (option_map (λ t. t.now) file.entry)) }
{
    let Some(file) = file else {
        return Err(Fault::WithoutFile);
    };
    Ok(Options {
        memory,
        commands: copied(alloc, commands)?,
        ..with_file(alloc, Mode::Debug, file)?
    })
}

// A script is played.
fn played<'a>(alloc: Global, mode: Mode, matches: &ArgMatches<'a>) -> Result<Options, Fault<'a>>
    ensures { Finds result (spec.playing mode (spec.play_of (rows_of (found_of matches.now)))
        (first_of (codes "SCRIPT") (rows_of (found_of matches.now)))) }
{
    match play_of(matches) {
        Ok(play) => playing(alloc, mode, play, given(matches, "SCRIPT")),
        Err(fault) => Err(fault),
    }
}

// How a script is played.
fn play_of<'a>(matches: &ArgMatches<'a>) -> Result<PlayOptions, Fault<'a>>
    ensures ok { IfOk result (λ play. spec.play_of (rows_of (found_of matches.now)) ≡ Some play) }
    ensures err { IfErr result (λ fault. spec.play_of (rows_of (found_of matches.now)) ≡ None) }
    ensures bad { IfErr result (λ fault. kind_of_fault fault ≡ ErrorKind.ValueValidation) }
{
    let connection = match limit_for(given(matches, "C")) {
        Ok(connection) => connection,
        Err(text) => return Err(Fault::Number("<C>", text)),
    };
    let bytes = match limit_for(given(matches, "N")) {
        Ok(bytes) => bytes,
        Err(text) => return Err(Fault::Number("<N>", text)),
    };
    let from = match limit_for(given(matches, "from")) {
        Ok(from) => from,
        Err(text) => return Err(Fault::Number("--from <N>", text)),
    };
    match limit_for(given(matches, "to")) {
        Ok(to) => Ok(PlayOptions {
            connection,
            bytes,
            from,
            to,
            facts: is_set(matches, "facts"),
        }),
        Err(text) => Err(Fault::Number("--to <N>", text)),
    }
}

fn playing<'a>(
    alloc: Global,
    mode: Mode,
    play: PlayOptions,
    script: Option<&str>,
) -> Result<Options, Fault<'a>>
    ensures { Finds result (spec.playing mode (Some play) (option_map (λ t. t.now) script.entry)) }
{
    let Some(script) = script else {
        return Err(Fault::WithoutFile);
    };
    Ok(Options {
        play,
        ..with_file(alloc, mode, script)?
    })
}

// Files are checked.
fn checking<'a>(alloc: Global, json: bool, files: Option<&[&str]>) -> Result<Options, Fault<'a>>
    ensures { Finds result (spec.checking json
        (option_map (λ s. map (λ t. t.now) s.now) files.entry)) }
{
    match files {
        Some([file, others @ ..]) => Ok(Options {
            others: Texts::of(alloc, others)?,
            json,
            ..with_file(alloc, Mode::Check, file)?
        }),
        _ => Err(Fault::WithoutFile),
    }
}

// Labels are told.
fn labelling<'a>(alloc: Global, json: bool, file: Option<&str>) -> Result<Options, Fault<'a>>
    ensures { Finds result (spec.labelling json (option_map (λ t. t.now) file.entry)) }
{
    let Some(file) = file else {
        return Err(Fault::WithoutFile);
    };
    Ok(Options {
        json,
        ..with_file(alloc, Mode::Labels, file)?
    })
}

// What is asked for where there is no command.
fn served<'a>(alloc: Global, matches: &ArgMatches<'a>) -> Result<Options, Fault<'a>>
    ensures { Finds result (spec.asked_of (rows_of (found_of matches.now)) None) }
{
    let listen = given(matches, "listen");
    let program = given(matches, "program");
    let once = is_set(matches, "once");
    let verbose = is_set(matches, "verbose");
    let recording = given(matches, "record");
    match memory_for(given(matches, "memory")) {
        Ok(memory) => serving(alloc, listen, program, once, verbose, recording, memory),
        Err(text) => Err(Fault::Memory(text)),
    }
}

fn serving<'a>(
    alloc: Global,
    listen: Option<&str>,
    program: Option<&str>,
    once: bool,
    verbose: bool,
    recording: Option<&str>,
    memory: u32,
) -> Result<Options, Fault<'a>>
    ensures { Finds result (spec.serving (option_map (λ t. t.now) listen.entry)
        (option_map (λ t. t.now) program.entry) once verbose
        (option_map (λ t. t.now) recording.entry) (Some memory)) }
{
    if listen.is_none() && program.is_some() {
        return Err(Fault::WithoutListen("--program <FILE>"));
    }
    if listen.is_none() && once {
        return Err(Fault::WithoutListen("--once"));
    }
    Ok(Options {
        mode: Mode::Serve,
        file: None,
        others: Texts::none(alloc),
        listen: copied(alloc, listen)?,
        program: copied(alloc, program)?,
        once,
        verbose,
        recording: copied(alloc, recording)?,
        memory,
        run: RunOptions::PLAIN,
        play: PlayOptions::PLAIN,
        json: false,
        commands: None,
    })
}

fn copied(alloc: Global, text: Option<&str>) -> Result<Option<Text>, AllocError>
    ensures { IfOk result (λ copy. copy ≡ option_map (λ t. t.now) text.entry) }
{
    match text {
        Some(text) => Ok(Some(Text::of(alloc, text)?)),
        None => Ok(None),
    }
}

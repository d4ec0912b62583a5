//! A script is played.
ghost use Rattle.std.specs.Prelude.{◌≡◌, IfErr, OnOk};
ghost use Rattle.watch_command.specs.Playing as spec;
ghost use Rattle.watch_command.specs.Private.Playing as inner;
ghost use Rattle.watch_command.specs.Playing.{Done, Fails, HasShortPath, HasWatched, IsSomething, Played, StepsFail, WatchAnswers};

use crate::configs::copy_of;
use crate::events::{events_of, within};
use crate::lines::lines_of;
use scripts::{Cut, Script, ScriptFault, Step, Watch, read_script};
use session::{Config, Event, Limits};
use std::alloc::{AllocError, Global};
use std::io::Write;
use thiserror::Error;
use transport::Files;
use watch_events::{WatchError, Watched, queued, watch};

/// How many bytes the memory has of a program in a script.
const MEMORY_SIZE: u32 = 1_048_576;

/// Why steps were not watched.
#[derive(Clone, Copy, Debug, PartialEq, Eq, Error)]
pub enum WatchFault {
    /// There is nothing to watch, or no memory was left.
    #[error("{0}")]
    Unwatched(WatchError),
    /// What was seen could not be written.
    #[error("write fault")]
    Write,
}

impl From<AllocError> for WatchFault {
    ghost use Rattle.watch_command.specs.declared.watching.WatchFault.TheVariants.{Unwatched};
    ghost use Rattle.watch_events.specs.declared.watching.WatchError.TheVariants.{NoMemory};

    ghost from_gives = { λ _ fault. fault ≡ Unwatched NoMemory };

    fn from(_: AllocError) -> WatchFault {
        WatchFault::Unwatched(WatchError::NoMemory)
    }
}

/// Plays a script: does its events in a session with 1 MiB of memory, no program and the greatest limits, and writes what an editor
/// knows by what its last line watches, a line for each fact, beside what could be seen. A file that cannot be read is given as none.
///
/// - `Line`: the first line that is not what it is to be, and then the last line, where no connection has the number that it watches, or
///   fewer bytes were queued for it. Nothing was written.
/// - `Write`: the writer failed, or took nothing.
/// - `NoMemory`: no memory was left. Nothing was written.
pub fn watch_script<F: Files, W: Write>(
    alloc: Global,
    script: &[u8],
    files: &mut F,
    writer: &mut W,
) -> Result<(), ScriptFault>
    ensures ok { OnOk result
        (Played script.now (F.past files.old) (F.past files.new) IsSomething) }
    ensures err { IfErr result (λ fault. Fails fault script.now
        (F.past files.old) (F.past files.new) (W.contents writer.old) (W.contents writer.new)) }
{
    let Script { steps, watch } = read_script(alloc, script)?;
    let last = steps.len() as u64 + 1;
    match watch_steps(alloc, config(), steps, watch, files, writer) {
        Ok(()) => Ok(()),
        Err(fault) => Err(fault_of(fault, last)),
    }
}

/// Plays the steps of a script that was read, in a session of this and with the greatest limits, and writes what an editor knows by what
/// is watched, as `watch_script` does. The path of a program that is given has at most 1,048,576 bytes.
///
/// - `Unwatched`: what `watch_events::watch` answers, or no memory was left. Nothing was written.
/// - `Write`: the writer failed, or took nothing.
pub fn watch_steps<F: Files, W: Write>(
    alloc: Global,
    config: Config,
    steps: Vec<Step>,
    watch: Watch,
    files: &mut F,
    writer: &mut W,
) -> Result<(), WatchFault>
    requires { HasShortPath config }
    ensures ok { OnOk result
        (Done steps.items (F.past files.old) (F.past files.new) (HasWatched config watch)) }
    ensures err { IfErr result (λ fault. StepsFail fault config steps.items watch
        (F.past files.old) (F.past files.new) (W.contents writer.old) (W.contents writer.new)) }
{
    let size = config.memory_size;
    let copy = match copy_of(alloc, &config) {
        Ok(copy) => copy,
        Err(refused) => {
            drop(config);
            drop(steps);
            return Err(refused.into());
        }
    };
    let events = match events_of(alloc, steps, files) {
        Ok(events) => events,
        Err(refused) => {
            drop(config);
            drop(copy);
            return Err(refused.into());
        }
    };
    let found = watched_by(alloc, config, copy, &events, watch);
    drop(events);
    let watched = match found {
        Ok(watched) => watched,
        Err(error) => return Err(WatchFault::Unwatched(error)),
    };
    let lines = lines_of(alloc, &watched, size);
    drop(watched);
    let lines = lines?;
    match writer.write_all(lines.as_bytes()) {
        Ok(()) => Ok(()),
        Err(_) => Err(WatchFault::Write),
    }
}

// What `watch` answers, in a session of this; the copy is for the number of all bytes.
fn watched_by(
    alloc: Global,
    config: Config,
    copy: Config,
    events: &[Event],
    asked: Watch,
) -> Result<Watched, WatchError>
    requires path { HasShortPath config }
    requires same { copy ≡ config }
    ensures { WatchAnswers config events.now asked result }
{
    let Watch { connection, cut } = asked;
    let limits = Limits::greatest();
    match cut {
        Cut::At(count) => {
            drop(copy);
            watch(alloc, config, limits, events, connection, within(count))
        }
        Cut::All => match queued(alloc, copy, limits, events, connection) {
            Ok(count) => watch(alloc, config, limits, events, connection, count),
            Err(error) => {
                drop(config);
                Err(error)
            }
        },
    }
}

fn config() -> Config
    ensures { result ≡ spec.config }
{
    Config {
        memory_size: MEMORY_SIZE,
        program: None,
    }
}

// What is said of a script whose steps are not watched.
fn fault_of(fault: WatchFault, last: u64) -> ScriptFault
    ensures { result ≡ inner.fault_of last fault }
{
    match fault {
        WatchFault::Unwatched(error) => unwatched(error, last),
        WatchFault::Write => ScriptFault::Write,
    }
}

fn unwatched(error: WatchError, last: u64) -> ScriptFault
    ensures { result ≡ inner.unwatched last error }
{
    match error {
        WatchError::NoSuchConnection | WatchError::CutTooLong => ScriptFault::Line(last),
        WatchError::Config(_) | WatchError::NoMemory => ScriptFault::NoMemory,
    }
}

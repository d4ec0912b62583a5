//! A script that is replayed as a conversation.
ghost use Rattle.std.specs.Prelude.{◌≡◌, IfOk};
ghost use Rattle.watch_command.specs.Conversing as spec;
ghost use Rattle.watch_command.specs.Private.Conversing as inner;
ghost use Rattle.watch_command.specs.Conversing.{Replays};
ghost use Rattle.watch_command.specs.Private.Conversing.{IsReady, ReplaysIn, Shows, ShowsAll, Writes};
ghost use Rattle.watch_command.specs.Playing.{HasShortPath};

use crate::asked::{Asked, ReplayFault, Unwritten};
use crate::configs::copy_of;
use crate::events::events_of;
use crate::knowing::{Knowing, is_asked};
use crate::saying::said_by;
use crate::stream::Stream;
use blocking_io::write_whole;
use scripts::Step;
use session::{Config, ConfigError, Event, Limits, Session};
use std::alloc::{AllocError, Global};
use std::io::Write;
use transport::Files;

/// Plays the steps of a script that was read, in a session of this and with the greatest limits, and writes what was said: the requests
/// that came and the messages that were queued, each on a line with the number of its event, as far as these are asked for. A file that
/// cannot be read is given as none, and an event that is refused is passed over. Where facts are asked for, each message is followed by
/// the lines of what an editor knows by then (`watch_steps`), with two blanks before each: for each message all events up to it are done
/// again. The path of a program that is given has at most 1,048,576 bytes.
///
/// - `Config`: there is no session of this (`Session::new`). No file was read, and nothing was written.
/// - `Write`: the writer failed, or took nothing. A first part was written.
/// - `NoMemory`: no memory was left. A first part was written.
pub fn replay<F: Files, W: Write>(
    alloc: Global,
    config: Config,
    steps: Vec<Step>,
    files: &mut F,
    asked: Asked,
    writer: &mut W,
) -> Result<(), ReplayFault>
    requires { HasShortPath config }
    ensures { Replays config asked steps.items (F.past files.old) (F.past files.new)
        (W.contents writer.old) (W.contents writer.new) result }
{
    let copy = copy_of(alloc, &config);
    match Session::new(alloc, config, Limits::greatest()) {
        Ok(mut session) => {
            let written = replay_in(alloc, copy, &mut session, steps, files, asked, writer);
            drop(session);
            answered(written)
        }
        Err(error) => {
            drop(copy);
            Err(no_session(error))
        }
    }
}

fn answered(written: Result<(), Unwritten>) -> Result<(), ReplayFault>
    ensures { result ≡ inner.answered written }
{
    match written {
        Ok(()) => Ok(()),
        Err(Unwritten::Write) => Err(ReplayFault::Write),
        Err(Unwritten::NoMemory) => Err(ReplayFault::NoMemory),
    }
}

fn no_session(error: ConfigError) -> ReplayFault
    ensures { result ≡ inner.no_session error }
{
    match error {
        ConfigError::NoMemory => ReplayFault::NoMemory,
        _ => ReplayFault::Config(error),
    }
}

// The same, in a session of this to which nothing happened.
fn replay_in<F: Files, W: Write>(
    alloc: Global,
    config: Result<Config, AllocError>,
    session: &mut Session,
    steps: Vec<Step>,
    files: &mut F,
    asked: Asked,
    writer: &mut W,
) -> Result<(), Unwritten>
    requires { IfOk config HasShortPath }
    ensures { ReplaysIn session.old asked steps.items (F.past files.old) (F.past files.new)
        (W.contents writer.old) (W.contents writer.new) result }
{
    let config = config?;
    let events = events_of(alloc, steps, files)?;
    let mut stream = Stream::new(alloc);
    let mut knowing = Knowing::new(alloc, config, &events);
    show_all(session, &mut stream, asked, &events, &mut knowing, writer)
}

// Does events, and writes what they say.
fn show_all<W: Write>(
    session: &mut Session,
    stream: &mut Stream,
    asked: Asked,
    events: &[Event],
    knowing: &mut Knowing<'_>,
    writer: &mut W,
) -> Result<(), Unwritten>
    requires ready { IsReady stream.old }
    requires path { HasShortPath knowing.old.config }
    ensures { ShowsAll asked events.now session.old stream.old
        (W.contents writer.old) (W.contents writer.new) result }
{
    let mut number: u64 = 0;
    for event in events {
        number += 1;
        match show(session, stream, asked, number, event, knowing, writer) {
            Ok(()) => {}
            Err(why) => return Err(why),
        }
    }
    Ok(())
}

// Does an event, and writes what it says, if that is asked for.
fn show<W: Write>(
    session: &mut Session,
    stream: &mut Stream,
    asked: Asked,
    number: u64,
    event: &Event,
    knowing: &mut Knowing<'_>,
    writer: &mut W,
) -> Result<(), Unwritten>
    requires ready { IsReady stream.old }
    requires path { HasShortPath knowing.old.config }
    ensures shows { Shows asked number event.now session.old session.new stream.old stream.new
        (W.contents writer.old) (W.contents writer.new) result }
    ensures same { knowing.new.config ≡ knowing.old.config }
{
    let lines = match said_by(session, stream, asked, number, event, knowing) {
        Ok(lines) => lines,
        Err(_) => return Err(Unwritten::NoMemory),
    };
    write_within(asked, number, &lines, writer)
}

// Writes lines of an event, if they are asked for.
fn write_within<W: Write>(
    asked: Asked,
    number: u64,
    lines: &[u8],
    writer: &mut W,
) -> Result<(), Unwritten>
    ensures { Writes (spec.within asked number lines.now)
        (W.contents writer.old) (W.contents writer.new) result }
{
    if !is_asked(asked, number) {
        return Ok(());
    }
    match write_whole(writer, lines) {
        Ok(()) => Ok(()),
        Err(_) => Err(Unwritten::Write),
    }
}

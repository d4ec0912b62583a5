//! `rvdap watch SCRIPT`: what an editor knows by a script; `rvdap replay SCRIPT`: its conversation. Both on standard output.

use crate::played::{FilesIn, beginning, script_in};
use blocking_io::Waiting;
use commands::{ExitReason, exit_with, fail_at};
use options::PlayOptions;
use scripts::{Cut, Recorded, ScriptFault, Watch, read_recorded, read_script};
use std::alloc::Global;
use std::process::ExitCode;
use transport::FileFault;
use watch_command::{Asked, ReplayFault, WatchFault, replay, watch_steps};
use watch_events::WatchError;

/// Plays the script in a file, and writes what an editor knows by it to standard output.
pub(crate) fn watch_file(rt: &HostRuntime, script: &str, play: PlayOptions) -> ExitCode {
    let text = match script_in(rt, script) {
        Ok(text) => text,
        Err(fault) => return unread(rt, script, fault),
    };
    match watched_in(rt.alloc(), text.as_slice(), play) {
        Ok((recorded, watch)) => watch_recorded(rt, script, recorded, watch),
        Err(fault) => unplayed(rt, script, fault),
    }
}

// The events of a script, and what is watched: what is asked for, or else what its last line says.
fn watched_in(
    alloc: Global,
    text: &[u8],
    play: PlayOptions,
) -> Result<(Recorded, Watch), ScriptFault> {
    let Some(connection) = play.connection else {
        let script = read_script(alloc, text)?;
        let recorded = Recorded {
            steps: script.steps,
            watch: Some(script.watch),
        };
        return Ok((recorded, script.watch));
    };
    let cut = match play.bytes {
        Some(count) => Cut::At(u64::from(count)),
        None => Cut::All,
    };
    Ok((read_recorded(alloc, text)?, Watch { connection, cut }))
}

fn watch_recorded(rt: &HostRuntime, script: &str, recorded: Recorded, watch: Watch) -> ExitCode {
    let (config, folder) = match beginning(rt, script) {
        Ok(begun) => begun,
        Err(fault) => return unread(rt, script, fault),
    };
    let mut files = FilesIn::new(rt, folder.as_str());
    let mut output = Waiting::new(rt.stdout());
    let last = recorded.steps.len() as u64 + 1;
    match watch_steps(
        rt.alloc(),
        config,
        recorded.steps,
        watch,
        &mut files,
        &mut output,
    ) {
        Ok(()) => ExitCode::SUCCESS,
        Err(WatchFault::Write) => exit_with(rt, ExitReason::ReadOrWriteFault),
        Err(WatchFault::Unwatched(WatchError::NoMemory)) => exit_with(rt, ExitReason::NoMemory),
        Err(WatchFault::Unwatched(WatchError::Config(error))) => fail_at(rt, script, error),
        Err(WatchFault::Unwatched(_)) => fail_at(rt, script, ScriptFault::Line(last)),
    }
}

/// Plays the script in a file, and writes its conversation to standard output.
pub(crate) fn replay_file(rt: &HostRuntime, script: &str, play: PlayOptions) -> ExitCode {
    let text = match script_in(rt, script) {
        Ok(text) => text,
        Err(fault) => return unread(rt, script, fault),
    };
    match read_recorded(rt.alloc(), text.as_slice()) {
        Ok(recorded) => replay_recorded(rt, script, recorded, play),
        Err(fault) => unplayed(rt, script, fault),
    }
}

fn replay_recorded(
    rt: &HostRuntime,
    script: &str,
    recorded: Recorded,
    play: PlayOptions,
) -> ExitCode {
    let (config, folder) = match beginning(rt, script) {
        Ok(begun) => begun,
        Err(fault) => return unread(rt, script, fault),
    };
    let asked = Asked {
        from: u64::from(play.from.unwrap_or(1)),
        to: play.to.map_or(u64::MAX, u64::from),
        facts: play.facts,
    };
    let mut files = FilesIn::new(rt, folder.as_str());
    let mut output = Waiting::new(rt.stdout());
    match replay(
        rt.alloc(),
        config,
        recorded.steps,
        &mut files,
        asked,
        &mut output,
    ) {
        Ok(()) => ExitCode::SUCCESS,
        Err(ReplayFault::Write) => exit_with(rt, ExitReason::ReadOrWriteFault),
        Err(ReplayFault::NoMemory) => exit_with(rt, ExitReason::NoMemory),
        Err(ReplayFault::Config(error)) => fail_at(rt, script, error),
    }
}

fn unread(rt: &HostRuntime, script: &str, fault: FileFault) -> ExitCode {
    match fault {
        FileFault::Unreadable => fail_at(rt, script, "cannot read"),
        FileFault::NoMemory => exit_with(rt, ExitReason::NoMemory),
    }
}

fn unplayed(rt: &HostRuntime, script: &str, fault: ScriptFault) -> ExitCode {
    match fault {
        ScriptFault::Write => exit_with(rt, ExitReason::ReadOrWriteFault),
        ScriptFault::NoMemory => exit_with(rt, ExitReason::NoMemory),
        ScriptFault::Line(_) => fail_at(rt, script, fault),
    }
}

//! `rvdap`, a debug adapter: editors that speak the Debug Adapter Protocol are served over standard streams or over TCP. By
//! `rvdap run FILE..` a program runs without an editor, by `rvdap check FILE..` its errors are told, by `rvdap labels FILE` and `rvdap asm FILE`
//! what is in it, `rvdap debug FILE` debugs a program in the terminal, `rvdap watch SCRIPT` shows what an editor knows by a script, and
//! `rvdap replay SCRIPT` its conversation, as of a session that was recorded.
#![tactic(auto)]

mod debug;
mod disk;
mod editors;
mod exit_reason;
mod listening;
mod played;
mod recorded_files;
mod recordings;
mod serving;
mod watch;

ghost use Rattle.std.specs.Prelude.{◌≤◌, IfOk, length};
ghost use Rattle.std.specs.Str.{IsUtf8};
ghost use Rattle.options.specs.Memory.{IsOffered};

use commands::{
    ExitReason, MemorySize, Terms, Unasked, VerboseWire, check_files, convert_file, exit_with,
    fail_at, list_file, list_labels, options_of, run_files, say,
};
use connections::StreamWire;
use debug::debug_file;
use disk::Disk;
use editors::editors_of;
use listening::{listen, listen_verbosely};
use options::{Mode, Options};
use protocol::Text;
use recordings::Recording;
use serving::{NoSession, new_session, serve_one};
use session::{BODY_LIMIT, Bytes, Session};
use std::io;
use std::process::ExitCode;
use transport::{FileFault, Files, Recorder, Unrecorded};
use watch::{replay_file, watch_file};

/// Status 0 where the input ended or a `disconnect` succeeded, where a file was listed or a script was played, where no file that was checked
/// has an error, and where help or the version was printed; 1 with one line on standard error where that failed, or where a file has an
/// error; 2 where the arguments are not taken. A program that is run says its status itself, and `debug_file` that of one that is debugged.
fn main(rt: HostRuntime) -> ExitCode {
    match options_of(&rt) {
        Ok(options) => run(&rt, &options),
        Err(Unasked::Printed(status)) => ExitCode::from(status),
        Err(Unasked::Failed(why)) => exit_with(&rt, why),
    }
}

fn run(rt: &HostRuntime, options: &Options) -> ExitCode
    requires { IsOffered options.now.memory }
{
    match (options.mode, &options.file) {
        (Mode::Asm, Some(file)) => list_file(rt, file.as_str()),
        (Mode::Convert, Some(file)) => convert_file(rt, file.as_str()),
        (Mode::Labels, Some(file)) => list_labels(rt, file.as_str(), options.json),
        (Mode::Watch, Some(script)) => watch_file(rt, script.as_str(), options.play),
        (Mode::Replay, Some(script)) => replay_file(rt, script.as_str(), options.play),
        (Mode::Debug, Some(file)) => debug_file(
            rt,
            file.as_str(),
            options.commands.as_ref(),
            MemorySize::of(options.memory),
        ),
        (Mode::Run, Some(file)) => run_files(
            rt,
            file.as_str(),
            options.others.as_slice(),
            terms_of(options),
        ),
        (Mode::Check, Some(file)) => check_files(
            rt,
            file.as_str(),
            options.others.as_slice(),
            options.json,
        ),
        _ => serve(rt, options),
    }
}

// How a program is run without an editor.
fn terms_of(options: &Options) -> Terms
    requires { IsOffered options.now.memory }
{
    Terms {
        memory: MemorySize::of(options.memory),
        run: options.run,
    }
}

// Serves editors, with the program that is given, if one is.
fn serve(rt: &HostRuntime, options: &Options) -> ExitCode
    requires { IsOffered options.now.memory }
{
    match &options.program {
        None => serve_with(rt, options, None, ""),
        Some(file) => match program_in(rt, file.as_str()) {
            Ok(program) => serve_with(rt, options, Some(program), file.as_str()),
            Err(FileFault::Unreadable) => fail_at(rt, file.as_str(), "cannot read"),
            Err(FileFault::NoMemory) => exit_with(rt, ExitReason::NoMemory),
        },
    }
}

// The most bytes that the path of a program may have.
const LONGEST_PATH: usize = 1 << 20;

// A program: the path of its file, and what that holds. A longer path is that of no file.
fn program_in(rt: &HostRuntime, file: &str) -> Result<(Text, Bytes), FileFault>
    ensures { IfOk result (λ given. IsUtf8 given.0 × (length given.0 ≤ 1048576)) }
{
    if file.len() > LONGEST_PATH {
        return Err(FileFault::Unreadable);
    }
    let text = Disk::new(rt).read(rt.alloc(), file)?;
    let path = String::from_str(rt.alloc(), file)?;
    Ok((Text::from_string(path), text))
}

fn serve_with(
    rt: &HostRuntime,
    options: &Options,
    program: Option<(Text, Bytes)>,
    file: &str,
) -> ExitCode
    requires { IsOffered options.now.memory }
{
    match recording_in(rt, options, program.as_ref()) {
        Ok(mut recording) => {
            let status = serve_from(rt, options, program, file, recording.as_mut());
            drop(recording);
            status
        }
        Err(status) => {
            drop(program);
            status
        }
    }
}

// The recording that is asked for, if one is; or the status where there is no folder to record in.
fn recording_in<'a>(
    rt: &'a HostRuntime,
    options: &'a Options,
    program: Option<&(Text, Bytes)>,
) -> Result<Option<Recording<'a>>, ExitCode> {
    let Some(folder) = &options.recording else {
        return Ok(None);
    };
    match Recording::begin(rt, folder.as_str(), options, program) {
        Ok(recording) => Ok(Some(recording)),
        Err(error) => Err(unrecorded(rt, folder.as_str(), &error)),
    }
}

// There is no folder to record in.
fn unrecorded(rt: &HostRuntime, folder: &str, error: &io::Error) -> ExitCode {
    say(rt, format_args!("rvdap: {folder}: {error}\n"));
    ExitCode::from(2)
}

fn serve_from(
    rt: &HostRuntime,
    options: &Options,
    program: Option<(Text, Bytes)>,
    file: &str,
    recording: Option<&mut Recording<'_>>,
) -> ExitCode
    requires { IsOffered options.now.memory }
{
    match new_session(rt.alloc(), MemorySize::of(options.memory), program) {
        Ok(mut session) => {
            let reason = serve_recorded(rt, options, &mut session, recording);
            drop(session);
            exit_with(rt, reason)
        }
        Err(NoSession::Assembly(error)) => fail_at(rt, file, error),
        Err(NoSession::NoMemory) => exit_with(rt, ExitReason::NoMemory),
    }
}

fn serve_recorded(
    rt: &HostRuntime,
    options: &Options,
    session: &mut Session,
    recording: Option<&mut Recording<'_>>,
) -> ExitReason {
    let Some(recording) = recording else {
        return serve_editors(rt, options, session, &mut Unrecorded);
    };
    let reason = serve_editors(rt, options, session, recording);
    recording.end();
    reason
}

fn serve_editors<R: Recorder>(
    rt: &HostRuntime,
    options: &Options,
    session: &mut Session,
    recorder: &mut R,
) -> ExitReason {
    match (editors_of(options), &options.listen) {
        (Some(editors), Some(address)) if options.verbose => {
            listen_verbosely(rt, session, recorder, address.as_str(), editors)
        }
        (Some(editors), Some(address)) => listen(rt, session, recorder, address.as_str(), editors),
        _ if options.verbose => serve_streams_verbosely(rt, session, recorder),
        _ => serve_streams(rt, session, recorder),
    }
}

fn serve_streams<R: Recorder>(
    rt: &HostRuntime,
    session: &mut Session,
    recorder: &mut R,
) -> ExitReason {
    let mut wire = StreamWire::new(rt.stdin(), rt.stdout());
    serve_one(rt.alloc(), session, &mut wire, &mut Disk::new(rt), recorder)
}

fn serve_streams_verbosely<R: Recorder>(
    rt: &HostRuntime,
    session: &mut Session,
    recorder: &mut R,
) -> ExitReason {
    let wire = StreamWire::new(rt.stdin(), rt.stdout());
    let mut heard = VerboseWire::new(rt, wire, BODY_LIMIT);
    serve_one(
        rt.alloc(),
        session,
        &mut heard,
        &mut Disk::new(rt),
        recorder,
    )
}

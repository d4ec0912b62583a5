//! `rvdap run FILE..`: a program runs without an editor, and what it prints comes on standard output.

ghost use Rattle.std.specs.Prelude.{◌≡◌};

use crate::ending::{exit_with, fail_at, say};
use crate::exit_reason::ExitReason;
use crate::memory::MemorySize;
use crate::run_end::{NOT_ASSEMBLED, limits_of, status_of};
use crate::run_told::{tell_error, tell_registers, tell_stop, tell_trace};
use crate::sources::{NoSources, Sources, sources_in};
use assembler::AsmErrorKind;
use blocking_io::Waiting;
use execution::{ExecutionEnd, ExecutionFault, Loaded, execute, load};
use options::{RunOptions, Text};
use std::alloc::AllocError;
use std::process::ExitCode;
use stepping::Runner;

/// How a program is run.
#[derive(Clone, Copy)]
pub struct Terms {
    /// The memory of the machine.
    pub memory: MemorySize,
    /// Its limits, and what is told of the run.
    pub run: RunOptions,
}

// Why a program was not run, or not to its end.
enum RunFault {
    // Standard output failed.
    Write,
    // No memory was left.
    NoMemory,
}

impl From<AllocError> for RunFault {
    ghost use Rattle.commands.specs.declared.running.RunFault.TheVariants.{NoMemory};

    ghost from_gives = { λ _ fault. fault ≡ NoMemory };

    fn from(_: AllocError) -> RunFault {
        RunFault::NoMemory
    }
}

/// Runs the program in files, the first and the others, each beginning on a line of its own, and writes what it prints to standard
/// output. The status says how it ended: its exit code modulo 256, or one of those of `status_of` with lines on standard error; 1 with
/// such a line where it was not run, or not to its end.
pub fn run_files(rt: &HostRuntime, first: &str, others: &[Text], terms: Terms) -> ExitCode {
    match sources_in(rt, first, others) {
        Ok(sources) => run_sources(rt, &sources, terms),
        Err(NoSources::Unreadable(file)) => fail_at(rt, file, "cannot read"),
        Err(NoSources::NoMemory) => exit_with(rt, ExitReason::NoMemory),
    }
}

// The program in texts runs.
fn run_sources(rt: &HostRuntime, sources: &Sources, terms: Terms) -> ExitCode {
    match run_text(rt, sources, terms) {
        Ok(status) => ExitCode::from(status),
        Err(RunFault::Write) => exit_with(rt, ExitReason::ReadOrWriteFault),
        Err(RunFault::NoMemory) => exit_with(rt, ExitReason::NoMemory),
    }
}

// The same, with the status as an answer.
fn run_text(rt: &HostRuntime, sources: &Sources, terms: Terms) -> Result<u8, RunFault> {
    match load(rt.alloc(), sources.whole(), terms.memory.bytes) {
        Ok(loaded) => run_loaded(rt, sources, loaded, terms.run),
        Err(error) if error.kind == AsmErrorKind::NoMemory => Err(RunFault::NoMemory),
        Err(error) => {
            tell_error(rt, sources, error)?;
            Ok(NOT_ASSEMBLED)
        }
    }
}

// A program that was loaded. To drop a machine is dear to prove, so it's done here alone, where there is one way out.
fn run_loaded(
    rt: &HostRuntime,
    sources: &Sources,
    mut loaded: Loaded,
    run: RunOptions,
) -> Result<u8, RunFault>
    requires { loaded.runner.retired ≡ 0 }
{
    run_lent(rt, sources, &mut loaded, run)
}

// A program that was loaded, which is lent.
fn run_lent(
    rt: &HostRuntime,
    sources: &Sources,
    loaded: &mut Loaded,
    run: RunOptions,
) -> Result<u8, RunFault>
    requires { loaded.old.runner.retired ≡ 0 }
{
    let executed = run_machine(rt, &mut loaded.runner, run);
    if run.count {
        let retired = loaded.runner.retired();
        say(rt, format_args!("rvdap: retired instructions: {retired}\n"));
    }
    match executed {
        Ok(end) => ended(rt, sources, loaded, run, end),
        Err(ExecutionFault::Write) => Err(RunFault::Write),
        Err(ExecutionFault::NoMemory) => Err(RunFault::NoMemory),
    }
}

// A machine runs to its end, and what it prints is written.
fn run_machine(
    rt: &HostRuntime,
    runner: &mut Runner,
    run: RunOptions,
) -> Result<ExecutionEnd, ExecutionFault>
    requires { runner.old.retired ≡ 0 }
{
    let mut output = Waiting::new(rt.stdout());
    let limits = limits_of(run.limit, run.output_limit);
    execute(rt.alloc(), runner, limits, &mut output)
}

// How a program ended: what is asked for is said on standard error, and where and why it stopped, unless it ended by itself.
fn ended(
    rt: &HostRuntime,
    sources: &Sources,
    loaded: &mut Loaded,
    run: RunOptions,
    end: ExecutionEnd,
) -> Result<u8, RunFault> {
    tell_stop(rt, sources, loaded, end)?;
    if let Some(count) = run.trace {
        tell_trace(rt, loaded, count)?;
    }
    if run.registers {
        tell_registers(rt, loaded)?;
    }
    Ok(status_of(end))
}

//! What `bench/run` times, part by part.
//!
//! Arguments: the part, `assembler`, `framing`, `hart`, `messages` or `stepping`, and its words, as its file says; and after each word `--`
//! another part with its words.
#![tactic(auto)]

mod back;
mod debugged;
mod frames;
mod harts;
mod messages;
mod programs;
mod runs;
mod texts;
mod way;

use std::process::ExitCode;
use std::rt::Env;
use std::{env, io};

/// How many bytes of memory there are.
pub(crate) const SIZE: u32 = 0x0010_0000;

/// How a part ended.
#[derive(Clone, Copy)]
pub(crate) enum End {
    /// All was done, and its answer is printed.
    Done,
    /// What it was given cannot be measured, as a line on standard error says.
    Failed,
    /// The words ask for nothing.
    Usage,
}

fn main(rt: HostRuntime) -> io::Result<ExitCode> {
    let arguments: Vec<String> = env::args(&rt)?.skip(1).collect(rt.alloc())?;
    for words in arguments.split(|word| word.as_str() == "--") {
        match measure(&rt, words)? {
            End::Done => {}
            End::Failed => return Ok(ExitCode::FAILURE),
            End::Usage => return usage(&rt),
        }
    }
    Ok(ExitCode::SUCCESS)
}

fn measure(rt: &HostRuntime, words: &[String]) -> io::Result<End> {
    let [part, words @ ..] = words else {
        return Ok(End::Usage);
    };
    match part.as_str() {
        "assembler" => texts::measure(rt, words),
        "framing" => frames::measure(rt, words),
        "hart" => harts::measure(rt, words),
        "messages" => messages::measure(rt, words),
        "stepping" => runs::measure(rt, words),
        _ => Ok(End::Usage),
    }
}

fn usage(rt: &HostRuntime) -> io::Result<ExitCode> {
    eprintln!(rt; "usage: bench assembler FILE ROUNDS|image")?;
    eprintln!(rt; "       bench framing FRAMES BODY PIECE")?;
    eprintln!(rt; "       bench hart tight|sort|fib ARGUMENT")?;
    eprintln!(rt; "       bench messages FILE write|read|request|json ROUNDS")?;
    eprintln!(rt; "       bench stepping FILE ARGUMENT go COUNT|over|if CONDITION|back COUNT")?;
    Ok(ExitCode::from(2))
}

//! Plays `transport`: sessions over wires in memory, and a server over streams that give and take a few
//! bytes at a time, are interrupted, and fail.
#![tactic(auto)]

mod polling;
mod shelf;
mod streams;
mod wired;

use polling::Streams;
use std::alloc::Global;
use std::process::ExitCode;
use testing::{Fault, Player, play, shown};
use transport::ServerError;
use wired::Wired;

/// What is played.
#[derive(Drop)]
struct Played {
    wired: Wired,
    streams: Streams,
}

fn main(rt: HostRuntime) -> ExitCode {
    match new_played(rt.alloc()) {
        Ok(mut played) => play(&rt, &mut played),
        Err(fault) => ExitCode::from(fault.status()),
    }
}

fn new_played(alloc: Global) -> Result<Played, Fault> {
    Ok(Played {
        wired: Wired::new(alloc)?,
        streams: Streams::new(alloc)?,
    })
}

impl Player for Played {
    fn answer(&mut self, alloc: Global, arguments: &[&str]) -> Result<String, Fault> {
        match arguments {
            ["stream", words @ ..] => self.streams.answer(alloc, words),
            ["text", name] => text_of(alloc, name),
            words => self.wired.answer(alloc, words),
        }
    }
}

/// The text of the error of this name.
fn text_of(alloc: Global, name: &str) -> Result<String, Fault> {
    match name {
        "Frame" => shown(alloc, ServerError::Frame),
        "Message" => shown(alloc, ServerError::Message),
        "Read" => shown(alloc, ServerError::Read),
        "Write" => shown(alloc, ServerError::Write),
        "TooManyReads" => shown(alloc, ServerError::TooManyReads),
        "NoMemory" => shown(alloc, ServerError::NoMemory),
        "SeqSpent" => shown(alloc, ServerError::SeqSpent),
        _ => Err(Fault::NoCommand),
    }
}

//! Writes and reads the message of a file: what `bench/messages/run` times.
//!
//! Words: the file, what is done, and how often.
//!
//! - `write`: the message is read once and written that often; the last text is written.
//! - `read`: the message is read that often.
//! - `request`: the request is read that often.
//! - `json`: the JSON value alone is read that often.

use crate::End;
use protocol::json::json_value;
use protocol::{MessageError, read_request};
use replies::{read_message, write_message};
use std::alloc::Global;
use std::io::Write;
use std::{fs, io};

/// What is done with the message.
#[derive(Clone, Copy)]
enum Work {
    Write,
    Read,
    Request,
    Json,
}

/// Does what the words say.
pub(crate) fn measure(rt: &HostRuntime, words: &[String]) -> io::Result<End> {
    let Some((file, work, rounds)) = task_of(words) else {
        return Ok(End::Usage);
    };
    let body = fs::read(rt, file)?;
    match work {
        Work::Write => write(rt, rounds, body.as_slice()),
        Work::Read => report(rt, read(rt.alloc(), rounds, body.as_slice())),
        Work::Request => report(rt, request(rt.alloc(), rounds, body.as_slice())),
        Work::Json => report(rt, json(rt.alloc(), rounds, body.as_slice())),
    }
}

fn task_of(words: &[String]) -> Option<(&str, Work, u32)> {
    let [file, work, rounds] = words else {
        return None;
    };
    let work = work_of(work.as_str())?;
    Some((file.as_str(), work, rounds.as_str().parse().ok()?))
}

fn work_of(word: &str) -> Option<Work> {
    match word {
        "write" => Some(Work::Write),
        "read" => Some(Work::Read),
        "request" => Some(Work::Request),
        "json" => Some(Work::Json),
        _ => None,
    }
}

/// Writes the text, or says why the body is no message.
fn write(rt: &HostRuntime, rounds: u32, body: &[u8]) -> io::Result<End> {
    match written(rt.alloc(), rounds, body) {
        Ok(text) => {
            rt.stdout().write_all(text.as_slice())?;
            Ok(End::Done)
        }
        Err(error) => report(rt, Err(error)),
    }
}

/// Says how the reading of all rounds ended.
fn report(rt: &HostRuntime, done: Result<(), MessageError>) -> io::Result<End> {
    match done {
        Ok(()) => println!(rt; "read")?,
        Err(error) => println!(rt; "{error}")?,
    }
    Ok(End::Done)
}

fn written(alloc: Global, rounds: u32, body: &[u8]) -> Result<Vec<u8>, MessageError> {
    let (seq, message) = read_message(alloc, body)?;
    for _ in 1..rounds {
        write_message(alloc, seq, &message)?;
    }
    Ok(write_message(alloc, seq, &message)?)
}

fn read(alloc: Global, rounds: u32, body: &[u8]) -> Result<(), MessageError> {
    for _ in 0..rounds {
        read_message(alloc, body)?;
    }
    Ok(())
}

fn request(alloc: Global, rounds: u32, body: &[u8]) -> Result<(), MessageError> {
    for _ in 0..rounds {
        read_request(alloc, body)?;
    }
    Ok(())
}

fn json(alloc: Global, rounds: u32, body: &[u8]) -> Result<(), MessageError> {
    for _ in 0..rounds {
        json_value(alloc, body)?;
    }
    Ok(())
}

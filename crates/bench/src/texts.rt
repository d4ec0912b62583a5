//! Assembles a text: what `bench/assembler/run` times.
//!
//! Words: the file of the text, and how often; then the count of bytes is printed. Or `image`; then the image's bytes are written.

use crate::{End, SIZE};
use assembler::assemble;
use image::Image;
use std::io::Write;
use std::{fs, io};

/// What is done with the image.
#[derive(Clone, Copy)]
enum Task {
    /// It is made this often, and its bytes are counted.
    Count(u32),
    /// Its bytes are written.
    Write,
}

/// Does what the words say.
pub(crate) fn measure(rt: &HostRuntime, words: &[String]) -> io::Result<End> {
    let Some((file, task)) = task_of(words) else {
        return Ok(End::Usage);
    };
    let text = fs::read(rt, file)?;
    match task {
        Task::Count(rounds) => count(rt, text.as_slice(), rounds),
        Task::Write => write(rt, text.as_slice()),
    }
}

fn task_of(words: &[String]) -> Option<(&str, Task)> {
    let [file, task] = words else {
        return None;
    };
    match task.as_str() {
        "image" => Some((file.as_str(), Task::Write)),
        rounds => Some((file.as_str(), Task::Count(rounds.parse().ok()?))),
    }
}

fn count(rt: &HostRuntime, text: &[u8], rounds: u32) -> io::Result<End> {
    for _ in 1..rounds {
        if assemble(rt.alloc(), text, SIZE).is_err() {
            break;
        }
    }
    let Some(image) = assembled(rt, text)? else {
        return Ok(End::Failed);
    };
    println!(rt; "{} bytes", image.bytes.as_slice().len())?;
    Ok(End::Done)
}

fn write(rt: &HostRuntime, text: &[u8]) -> io::Result<End> {
    let Some(image) = assembled(rt, text)? else {
        return Ok(End::Failed);
    };
    rt.stdout().write_all(image.bytes.as_slice())?;
    Ok(End::Done)
}

/// The image of a text; `None`: it has an error, as a line on standard error says.
pub(crate) fn assembled(rt: &HostRuntime, text: &[u8]) -> io::Result<Option<Image>> {
    match assemble(rt.alloc(), text, SIZE) {
        Ok(image) => Ok(Some(image)),
        Err(error) => {
            eprintln!(rt; "{error}")?;
            Ok(None)
        }
    }
}

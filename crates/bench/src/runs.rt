//! Runs a program under a debugger's machine: what `bench/stepping/run` times.
//!
//! Words: the file of the program's text, the value of a0 at the start, and how the program is run; `way.rt` has the ways.

use crate::End;
use crate::back::least_back;
use crate::debugged::{loaded, run};
use crate::texts::assembled;
use crate::way::Way;
use image::Image;
use std::{fs, io};
use stepping::Runner;

/// Does what the words say.
pub(crate) fn measure(rt: &HostRuntime, words: &[String]) -> io::Result<End> {
    let Some((file, argument, way)) = task_of(words) else {
        return Ok(End::Usage);
    };
    let text = fs::read(rt, file)?;
    match assembled(rt, &text)? {
        Some(image) => measure_image(rt, &image, argument, way),
        None => Ok(End::Failed),
    }
}

fn task_of(words: &[String]) -> Option<(&str, u32, Way<'_>)> {
    let [file, argument, words @ ..] = words else {
        return None;
    };
    let argument = argument.as_str().parse().ok()?;
    Some((file.as_str(), argument, Way::of(words)?))
}

fn measure_image(rt: &HostRuntime, image: &Image, argument: u32, way: Way<'_>) -> io::Result<End> {
    let Some(mut runner) = loaded(rt.alloc(), image, argument)? else {
        eprintln!(rt; "no memory has room for the program")?;
        return Ok(End::Failed);
    };
    match way.breaks(rt.alloc(), image.entry) {
        Ok(specs) => {
            if !specs.is_empty() {
                runner.breaks_mut().set_instructions(specs)?;
            }
        }
        Err(error) => {
            eprintln!(rt; "{error}")?;
            return Ok(End::Failed);
        }
    }
    match way {
        Way::Back(rounds) => tell_least(rt, &mut runner, rounds),
        way => tell_end(rt, &mut runner, way),
    }
}

fn tell_least(rt: &HostRuntime, runner: &mut Runner, rounds: u32) -> io::Result<End> {
    let Some(micros) = least_back(rt, runner, rounds)? else {
        eprintln!(rt; "the program does not go so far, or not back to its start")?;
        return Ok(End::Failed);
    };
    println!(rt; "{}.{:03}", micros / 1000, micros % 1000)?;
    Ok(End::Done)
}

fn tell_end(rt: &HostRuntime, runner: &mut Runner, way: Way<'_>) -> io::Result<End> {
    let code = run(runner, way.goal());
    let retired = runner.retired();
    match code {
        Some(code) => println!(rt; "{retired} instructions, code {code}")?,
        None => println!(rt; "{retired} instructions, and then a stop")?,
    }
    Ok(End::Done)
}

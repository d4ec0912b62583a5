//! Events as they are made and shown.

use crate::responses::{optional_text_of, text_of};
use protocol::Entries;
use replies::{Category, Event, Exited, Output, Reason, Stopped};
use std::alloc::{AllocError, Global};
use testing::{Fault, Line, parsed};

/// The event that is named, with its parts.
pub(crate) fn event_of(alloc: Global, words: &[&str]) -> Result<Event, Fault> {
    match words {
        ["Initialized"] => Ok(Event::Initialized),
        ["Stopped", reason, text, ids @ ..] => stopped(alloc, reason, text, ids),
        ["Continued"] => Ok(Event::Continued),
        ["Output", category, text] => output(alloc, category, text),
        ["Exited", code] => exited(code),
        ["Terminated"] => Ok(Event::Terminated),
        _ => Err(Fault::NoCommand),
    }
}

/// A stop for this reason, with this text or `none`, and the numbers of its breakpoints.
fn stopped(alloc: Global, reason: &str, text: &str, ids: &[&str]) -> Result<Event, Fault> {
    Ok(Event::Stopped(Stopped {
        reason: reason_named(reason)?,
        text: optional_text_of(alloc, text)?,
        hit_breakpoint_ids: numbers(alloc, ids)?,
    }))
}

fn output(alloc: Global, category: &str, text: &str) -> Result<Event, Fault> {
    let category = category_named(category)?;
    let output = text_of(alloc, text)?;
    Ok(Event::Output(Output { category, output }))
}

fn category_named(name: &str) -> Result<Category, Fault> {
    match name {
        "Console" => Ok(Category::Console),
        "Stdout" => Ok(Category::Stdout),
        _ => Err(Fault::NoCommand),
    }
}

fn exited(code: &str) -> Result<Event, Fault> {
    let exit_code = parsed(code)?;
    Ok(Event::Exited(Exited { exit_code }))
}

fn numbers(alloc: Global, words: &[&str]) -> Result<Entries<u32>, Fault> {
    let mut numbers = Vec::new(alloc);
    for word in words {
        numbers.push(parsed(word)?).map_err(AllocError::from)?;
    }
    Ok(Entries::from_vec(numbers))
}

fn reason_named(name: &str) -> Result<Reason, Fault> {
    match name {
        "Entry" => Ok(Reason::Entry),
        "Step" => Ok(Reason::Step),
        "Breakpoint" => Ok(Reason::Breakpoint),
        "InstructionBreakpoint" => Ok(Reason::InstructionBreakpoint),
        "FunctionBreakpoint" => Ok(Reason::FunctionBreakpoint),
        "Exception" => Ok(Reason::Exception),
        "Pause" => Ok(Reason::Pause),
        _ => Err(Fault::NoCommand),
    }
}

/// The name of an event, and its parts.
pub(crate) fn show_event(line: &mut Line, event: &Event) -> Result<(), Fault> {
    line.word("event")?;
    match event {
        Event::Initialized => line.word("Initialized"),
        Event::Stopped(body) => show_stop(line, body),
        Event::Continued => line.word("Continued"),
        Event::Output(body) => show_output(line, body),
        Event::Exited(body) => show_exit(line, body),
        Event::Terminated => line.word("Terminated"),
    }
}

fn show_stop(line: &mut Line, body: &Stopped) -> Result<(), Fault> {
    line.word("Stopped")?;
    line.name(body.reason)?;
    match &body.text {
        Some(text) => line.bytes(text.as_str().as_bytes())?,
        None => line.word("none")?,
    }
    for id in body.hit_breakpoint_ids.as_slice() {
        line.value(*id)?;
    }
    Ok(())
}

fn show_output(line: &mut Line, body: &Output) -> Result<(), Fault> {
    line.word("Output")?;
    line.name(body.category)?;
    line.bytes(body.output.as_str().as_bytes())
}

fn show_exit(line: &mut Line, body: &Exited) -> Result<(), Fault> {
    line.word("Exited")?;
    line.value(body.exit_code)
}

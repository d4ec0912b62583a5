//! Plays `prompt`: what a line asks for, word by word. A text is its column and its bytes.

use prompt::{Direction, Line as Typed, Motion, Place, Plain, Stop, Text, Unit, read_line};
use std::alloc::Global;
use testing::{Fault, Line};

/// What a line asks for.
pub(crate) fn typed(alloc: Global, line: &[u8]) -> Result<String, Fault> {
    let mut out = Line::new(alloc);
    match read_line(line) {
        Ok(typed) => add(&mut out, &typed)?,
        Err(error) => out.value(error)?,
    }
    Ok(out.into_string())
}

fn add(out: &mut Line, typed: &Typed<'_>) -> Result<(), Fault> {
    match typed {
        Typed::Again => out.word("again"),
        Typed::Comment => out.word("comment"),
        Typed::Plain(plain) => out.word(plain_name(*plain)),
        Typed::Move(motion, times) => add_number(out, motion_name(*motion), Some(*times)),
        Typed::Delete(number) => add_number(out, "delete", *number),
        Typed::Undisplay(number) => add_number(out, "undisplay", *number),
        Typed::Break(stop) => add_stop(out, stop),
        Typed::Log(place, text) => {
            out.word("log")?;
            add_place(out, place)?;
            add_text(out, text)
        }
        Typed::List(place) => {
            out.word("list")?;
            add_place_if(out, place)
        }
        Typed::Disassemble(place, count) => {
            out.word("disassemble")?;
            add_place_if(out, place)?;
            out.optional(*count)
        }
        other => add_texts(out, other),
    }
}

fn add_texts(out: &mut Line, typed: &Typed<'_>) -> Result<(), Fault> {
    match typed {
        Typed::Help(text) => named_if(out, "help", text),
        Typed::Registers(text) => named_if(out, "registers", text),
        Typed::Change(Direction::Forward, text) => named(out, "change", text),
        Typed::Change(Direction::Backward, text) => named(out, "back-to-change", text),
        Typed::Print(text) => named(out, "print", text),
        Typed::Display(text) => named(out, "display", text),
        Typed::Set(target, value) => {
            named(out, "set", target)?;
            add_text(out, value)
        }
        Typed::Examine(unit, text, count) => {
            named(out, unit_name(*unit), text)?;
            out.optional(*count)
        }
        _ => Err(Fault::NoCommand),
    }
}

fn add_stop(out: &mut Line, stop: &Stop<'_>) -> Result<(), Fault> {
    out.word(if stop.is_temporary { "once" } else { "break" })?;
    add_place(out, &stop.place)?;
    named_if(out, "if", &stop.condition)?;
    out.word("hit")?;
    out.optional(stop.hits)
}

fn add_place(out: &mut Line, place: &Place<'_>) -> Result<(), Fault> {
    match place {
        Place::Line(line) => add_number(out, "line", Some(*line)),
        Place::Label(label) => named(out, "label", label),
        Place::Address(text) => named(out, "address", text),
    }
}

fn add_place_if(out: &mut Line, place: &Option<Place<'_>>) -> Result<(), Fault> {
    match place {
        Some(place) => add_place(out, place),
        None => out.word("here"),
    }
}

fn add_number(out: &mut Line, name: &str, number: Option<u32>) -> Result<(), Fault> {
    out.word(name)?;
    out.optional(number)
}

fn named(out: &mut Line, name: &str, text: &Text<'_>) -> Result<(), Fault> {
    out.word(name)?;
    add_text(out, text)
}

fn named_if(out: &mut Line, name: &str, text: &Option<Text<'_>>) -> Result<(), Fault> {
    match text {
        Some(text) => named(out, name, text),
        None => {
            out.word(name)?;
            out.word("none")
        }
    }
}

fn add_text(out: &mut Line, text: &Text<'_>) -> Result<(), Fault> {
    out.value(text.column())?;
    out.bytes(text.as_str().as_bytes())
}

fn plain_name(plain: Plain) -> &'static str {
    match plain {
        Plain::Quit => "quit",
        Plain::Run => "run",
        Plain::Breakpoints => "breakpoints",
        Plain::Stack => "stack",
        Plain::Backtrace => "backtrace",
        Plain::Labels => "labels",
        Plain::Where => "where",
    }
}

fn motion_name(motion: Motion) -> &'static str {
    match motion {
        Motion::Continue => "continue",
        Motion::Step => "step",
        Motion::Next => "next",
        Motion::Finish => "finish",
        Motion::StepInstruction => "stepi",
        Motion::NextInstruction => "nexti",
        Motion::Back => "back",
        Motion::ReverseContinue => "reverse-continue",
    }
}

fn unit_name(unit: Unit) -> &'static str {
    match unit {
        Unit::Words => "words",
        Unit::Bytes => "bytes",
    }
}

//! A text to the lines that say something.
ghost use Rattle.std.specs.Prelude.{◌≡◌, ◌≤◌, ◌<◌, ◌+◌, ◌^◌, ◌++◌, ◌∷◌, [], Ok, Err, Result, length, IfSome, MatchResult, OnOk, IfErr};
ghost use Rattle.std.specs.Str.Lines.{lines, strip_carriage_return};
ghost use Rattle.statements.specs.Reading.{read};
ghost use Rattle.assembler.specs.Errors.{error_in, no_memory, Reports};
ghost use Rattle.assembler.specs.Program as spec;
ghost use Rattle.assembler.specs.Private.Steps.{after, said};

use crate::error::{AsmError, AsmErrorKind};
use byte_strings::parted;
use statements::{Line, read_line};
use std::alloc::Global;

/// How many bytes a text may have.
pub const TEXT_LIMIT: usize = 1_048_576;

/// A line that says something.
#[derive(Drop)]
pub(crate) struct Source<'a> {
    /// Its number, from 1 on.
    pub number: u32,
    /// What it says.
    pub line: Line<'a>,
}

/// The lines of a text that say something.
pub(crate) fn read_program<'a>(alloc: Global, text: &'a [u8]) -> Result<Vec<Source<'a>>, AsmError>
    ensures answers { MatchResult result (λ p. spec.read_text text.now ≡ Ok p.items)
        (λ e. Reports e (error_in (spec.read_text text.now))) }
    ensures whole { IfSome (spec.whole_error text.now) (λ error. result ≡ Err error) }
{
    if text.len() > TEXT_LIMIT {
        return Err(AsmError {
            line: 0,
            kind: AsmErrorKind::TooLarge,
        });
    }
    match str::from_utf8(text) {
        Ok(_) => read_lines(alloc, text),
        Err(error) => Err(AsmError {
            line: line_at(text, error.valid_up_to()),
            kind: AsmErrorKind::NotUtf8,
        }),
    }
}

// The line on which the byte at an index stands.
fn line_at(text: &[u8], index: usize) -> u32
    requires within { index ≤ length text.now }
    requires few { length text.now ≤ 1048576 }
    ensures { result ≡ spec.line_at text.now index }
{
    let before = &text[..index];
    before.iter().filter(|b| **b == b'\n').count() as u32 + 1
}

fn read_lines<'a>(alloc: Global, text: &'a [u8]) -> Result<Vec<Source<'a>>, AsmError>
    requires { length text.now ≤ 1048576 }
    ensures { MatchResult result (λ p. spec.read_lines 1 (lines text.now) ≡ Ok p.items)
        (λ e. Reports e (error_in (spec.read_lines 1 (lines text.now)))) }
{
    let mut program = Vec::new(alloc);
    let mut number = 0;
    let mut rest = text;
    'lines: while !rest.is_empty() {
        let (line, after) = first_line(rest);
        number += 1;
        if let Err(error) = read_one(alloc, &mut program, number, line) {
            return Err(error);
        }
        rest = after;
    }
    Ok(program)
}

// The first line of a text that is not empty, and what comes after it.
fn first_line(text: &[u8]) -> (&[u8], &[u8])
    requires { 0 < length text.now }
    ensures lines { lines text.now ≡ result.0.now ∷ lines result.1.now }
    ensures smaller { length result.1.now < length text.now }
{
    match parted(b'\n', text) {
        Some((line, after)) => (without_carriage_return(line), after),
        None => (text, b""),
    }
}

fn without_carriage_return(line: &[u8]) -> &[u8]
    ensures { result.now ≡ strip_carriage_return line.now }
{
    if !line.is_empty() && line[line.len() - 1] == b'\r' {
        &line[..line.len() - 1]
    } else {
        line
    }
}

// One line more.
fn read_one<'a>(
    alloc: Global,
    program: &mut Vec<Source<'a>>,
    number: u32,
    text: &'a [u8],
) -> Result<(), AsmError>
    ensures { MatchResult result
        (λ _. after program.old.items (said number (read text.now)) ≡ Ok program.new.items)
        (λ e. Reports e (error_in (said number (read text.now)))) }
{
    match read_line(alloc, text) {
        Ok(line) => keep(program, number, line),
        Err(error) => Err(AsmError::of_line(number, error)),
    }
}

fn keep<'a>(program: &mut Vec<Source<'a>>, number: u32, line: Line<'a>) -> Result<(), AsmError>
    ensures ok { OnOk result
        (program.new.items ≡ program.old.items ++ spec.kept number line.entry []) }
    ensures err { IfErr result (λ e. e ≡ no_memory) }
{
    if line.labels.as_slice().is_empty() && line.statement.is_none() {
        return Ok(());
    }
    match program.push(Source { number, line }) {
        Ok(()) => Ok(()),
        Err(_) => Err(AsmError::no_memory()),
    }
}

//! The first pass: the lines of a text are read.

ghost use Rattle.std.specs.Prelude.{◌≡◌, ◌≤◌, ◌++◌, [], Some, None, if◌then◌else◌, IfOk, OnOk, length, map, option_map};
ghost use Rattle.assembler.specs.Errors.{at as at_line};
ghost use Rattle.assembler.specs.Program.{kept};
ghost use Rattle.statements.specs.Reading.{read};
ghost use Rattle.diagnostics.specs.Errors as spec;
ghost use Rattle.diagnostics.specs.Findings.{errors_found, program_of};
ghost use Rattle.diagnostics.specs.Private.Steps as steps;

use crate::found::{Found, Misfit, add_error};
use assembler::{AsmError, AsmErrorKind};
use statements::{Line, LineError, read_line};
use std::alloc::{AllocError, Global};

/// A line that says something.
#[derive(Drop)]
pub(crate) struct ReadLine<'a> {
    /// Its number, from 1 on.
    pub number: u32,
    /// What it says.
    pub line: Line<'a>,
}

/// The lines that say something, if all can be read. `Err`: no memory was left.
pub(crate) fn read_program<'a>(
    alloc: Global,
    texts: &[&'a str],
) -> Result<Option<Vec<ReadLine<'a>>>, AllocError>
    requires { length texts.now ≤ 1048577 }
    ensures { IfOk result (λ read. option_map (λ list. program_of list.items) read
        ≡ (if steps.all_read (map (λ text. text.now) texts.now)
        then Some (steps.said_lines 1 (map (λ text. text.now) texts.now)) else None)) }
{
    let mut program = Vec::new(alloc);
    let mut number = 0;
    for text in texts {
        number += 1;
        let Some(line) = line_in(alloc, *text)? else {
            return Ok(None);
        };
        keep(&mut program, number, line)?;
    }
    Ok(Some(program))
}

// What a line says, if it can be read.
fn line_in<'a>(alloc: Global, text: &'a str) -> Result<Option<Line<'a>>, AllocError>
    ensures { IfOk result (λ line. line ≡ spec.value_in (read text.now)) }
{
    match read_line(alloc, text.as_bytes()) {
        Ok(line) => Ok(Some(line)),
        Err(LineError::NoMemory) => Err(AllocError),
        Err(LineError::Syntax) => Ok(None),
        Err(LineError::UnknownInstruction) => Ok(None),
        Err(LineError::BadOperand) => Ok(None),
        Err(LineError::OutOfRange) => Ok(None),
    }
}

// Adds a line, if it says something.
fn keep<'a>(program: &mut Vec<ReadLine<'a>>, number: u32, line: Line<'a>) -> Result<(), AllocError>
    ensures { OnOk result (program_of program.new.items
        ≡ program_of program.old.items ++ kept number line.entry []) }
{
    if line.labels.as_slice().is_empty() && line.statement.is_none() {
        drop(line);
        return Ok(());
    }
    program.push(ReadLine { number, line })?;
    Ok(())
}

/// The errors of lines that cannot be read. `Err`: no memory was left.
pub(crate) fn unreadable(alloc: Global, texts: &[&str]) -> Result<Vec<Found>, AllocError>
    requires { length texts.now ≤ 1048577 }
    ensures { IfOk result (λ list. errors_found list.items
        ≡ spec.reading_errors 1 (map (λ text. text.now) texts.now)) }
{
    let mut found = Vec::new(alloc);
    let mut number = 0;
    for text in texts {
        number += 1;
        let error = unread(alloc, number, text)?;
        add_error(&mut found, error, Misfit::Unknown)?;
    }
    Ok(found)
}

// The error of a line, if it cannot be read.
fn unread(alloc: Global, number: u32, text: &str) -> Result<Option<AsmError>, AllocError>
    ensures { IfOk result (λ error. error ≡ spec.unread number (read text.now)) }
{
    match read_line(alloc, text.as_bytes()) {
        Ok(line) => {
            drop(line);
            Ok(None)
        }
        Err(LineError::Syntax) => Ok(Some(at(number, AsmErrorKind::Syntax))),
        Err(LineError::UnknownInstruction) => Ok(Some(at(
            number,
            AsmErrorKind::UnknownInstruction,
        ))),
        Err(LineError::BadOperand) => Ok(Some(at(number, AsmErrorKind::BadOperand))),
        Err(LineError::OutOfRange) => Ok(Some(at(number, AsmErrorKind::OutOfRange))),
        Err(LineError::NoMemory) => Err(AllocError),
    }
}

fn at(line: u32, kind: AsmErrorKind) -> AsmError
    ensures { result ≡ at_line line kind }
{
    AsmError { line, kind }
}

//! What is told of a line with an error: at which column, and in which words.

ghost use Rattle.std.specs.Prelude.{IfOk};
ghost use Rattle.diagnostics.specs.Parts.{IsWithin};

use crate::advice::{Said, count_words, form_words, range_words};
use crate::explaining::explanation;
use crate::forms::form_of;
use crate::labels::{Labels, twice_defined, undefined, undefined_words};
use crate::operands::{
    Operand, at_fault, blank_operand, count_of, operand_at, operand_named, text_of,
};
use crate::parts::{column_of, label_part, mnemonic_of, operands_of, statement_of};
use crate::places::{Place, place_words};
use crate::statements_at_fault::{blank_words, nameless_words, unknown_words};
use assembler::AsmErrorKind;
use byte_strings::without_leading_blanks;
use statements::{Line, LineError, Statement, is_name, read_line, without_comment};
use std::alloc::{AllocError, Global};

/// What is told of a line with an error.
#[derive(Drop)]
pub(crate) struct Fault {
    /// The column, counted in bytes from 1.
    pub column: u32,
    /// What is wrong, and what to write.
    pub words: String,
}

/// What is told of a line with an error of a kind. `Err`: no memory was left.
pub(crate) fn fault_of(
    alloc: Global,
    place: &Place,
    labels: &Labels,
    kind: AsmErrorKind,
) -> Result<Fault, AllocError>
    ensures { IfOk result (λ fault. IsWithin place.now.line.now fault.column) }
{
    match read_line(alloc, place.line.as_bytes()) {
        Ok(line) => placed_fault(alloc, place, labels, kind, &line),
        Err(LineError::NoMemory) => Err(AllocError),
        Err(error) => reading_fault(alloc, place, error),
    }
}

// ---- a line that is not read

fn reading_fault(alloc: Global, place: &Place, error: LineError) -> Result<Fault, AllocError>
    ensures { IfOk result (λ fault. IsWithin place.now.line.now fault.column) }
{
    let line = place.line.as_bytes();
    let statement = statement_of(line);
    match error {
        LineError::Syntax => syntax_fault(alloc, line, statement),
        LineError::UnknownInstruction => Ok(Fault {
            column: column_of(line, statement),
            words: unknown_words(alloc, statement, place.guesses)?,
        }),
        _ => operand_fault(alloc, line, statement, error),
    }
}

fn syntax_fault(alloc: Global, line: &[u8], statement: &[u8]) -> Result<Fault, AllocError>
    ensures { IfOk result (λ fault. IsWithin line.now fault.column) }
{
    if !is_name(mnemonic_of(statement)) {
        return Ok(Fault {
            column: column_of(line, statement),
            words: nameless_words(alloc, statement)?,
        });
    }
    match blank_operand(operands_of(statement)) {
        Some((index, part)) => Ok(Fault {
            column: column_of(line, part),
            words: blank_words(alloc, index)?,
        }),
        None => general(alloc, line, statement, AsmErrorKind::Syntax),
    }
}

fn operand_fault(
    alloc: Global,
    line: &[u8],
    statement: &[u8],
    error: LineError,
) -> Result<Fault, AllocError>
    ensures { IfOk result (λ fault. IsWithin line.now fault.column) }
{
    let mnemonic = text_of(mnemonic_of(statement));
    let operands = operands_of(statement);
    let Some(form) = form_of(mnemonic) else {
        return general(alloc, line, statement, AsmErrorKind::BadOperand);
    };
    let said = Said {
        mnemonic,
        form,
        operands,
    };
    match at_fault(alloc, form, operands, error)? {
        Some(operand) => Ok(Fault {
            column: column_of(line, operand.part),
            words: operand_words(alloc, &said, operand, error)?,
        }),
        None => Ok(Fault {
            column: column_of(line, statement),
            words: count_words(alloc, &said, count_of(operands))?,
        }),
    }
}

fn operand_words(
    alloc: Global,
    said: &Said,
    operand: Operand,
    error: LineError,
) -> Result<String, AllocError> {
    match error {
        LineError::OutOfRange => range_words(alloc, operand),
        _ => form_words(alloc, said, operand),
    }
}

fn general(alloc: Global, line: &[u8], part: &[u8], kind: AsmErrorKind) -> Result<Fault, AllocError>
    ensures { IfOk result (λ fault. IsWithin line.now fault.column) }
{
    Ok(Fault {
        column: column_of(line, part),
        words: String::from_str(alloc, explanation(kind))?,
    })
}

// ---- a line that is read

fn placed_fault(
    alloc: Global,
    place: &Place,
    labels: &Labels,
    kind: AsmErrorKind,
    line: &Line,
) -> Result<Fault, AllocError>
    ensures { IfOk result (λ fault. IsWithin place.now.line.now fault.column) }
{
    let text = place.line.as_bytes();
    match (kind, &line.statement) {
        (AsmErrorKind::TwiceDefined, _) => twice_fault(alloc, place, labels, line),
        (AsmErrorKind::Undefined, Some(statement)) => {
            undefined_fault(alloc, place, labels, statement)
        }
        (AsmErrorKind::OutOfRange, statement) => Ok(Fault {
            column: column_of(text, statement_or_label(text)),
            words: place_words(alloc, place.misfit, statement.as_ref())?,
        }),
        _ => general(alloc, text, statement_or_label(text), kind),
    }
}

// The statement of a line, or its first label, where it has no statement.
fn statement_or_label(line: &[u8]) -> &[u8] {
    let statement = statement_of(line);
    if statement.is_empty() {
        without_leading_blanks(without_comment(line))
    } else {
        statement
    }
}

fn twice_fault(
    alloc: Global,
    place: &Place,
    labels: &Labels,
    line: &Line,
) -> Result<Fault, AllocError>
    ensures { IfOk result (λ fault. IsWithin place.now.line.now fault.column) }
{
    let text = place.line.as_bytes();
    let names = line.labels.as_slice();
    match twice_defined(alloc, labels, place.number, names)? {
        Some(twice) => {
            let name = twice.name;
            let first = twice.first;
            Ok(Fault {
                column: column_of(text, label_part(text, twice.index)),
                words: format!(in alloc; "line {first} defines {name} before")?,
            })
        }
        None => general(alloc, text, label_part(text, 0), AsmErrorKind::TwiceDefined),
    }
}

fn undefined_fault(
    alloc: Global,
    place: &Place,
    labels: &Labels,
    statement: &Statement,
) -> Result<Fault, AllocError>
    ensures { IfOk result (λ fault. IsWithin place.now.line.now fault.column) }
{
    let line = place.line.as_bytes();
    let operands = operands_of(statement_of(line));
    match undefined(labels, statement) {
        Some(name) => Ok(Fault {
            column: column_of(line, naming_part(operands, statement, name)),
            words: undefined_words(alloc, labels, name, place.guesses)?,
        }),
        None => general(alloc, line, operands, AsmErrorKind::Undefined),
    }
}

// The operand that names a label: of data the first of this name, and else the last.
fn naming_part<'a>(operands: &'a [u8], statement: &Statement, name: &str) -> &'a [u8] {
    if let Statement::Data { .. } = statement {
        operand_named(operands, name)
    } else {
        operand_at(operands, count_of(operands).saturating_sub(1)).unwrap_or(operands)
    }
}

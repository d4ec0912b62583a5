//! Lines: labels, a mnemonic and operands.
ghost use Rattle.std.specs.Prelude.{◌≡◌, ◌<◌, length, position, Option, IfOk, IfErr};
ghost use Rattle.std.specs.Option.{option_copied};
ghost use Rattle.statements.specs.Directives.{OrNoMemory};
ghost use Rattle.statements.specs.Reading as spec;
ghost use Rattle.statements.specs.Spelling.{named};
ghost use Rattle.byte_strings.specs.Blanks.{is_blank};
ghost use Rattle.byte_strings.specs.Fields.{fields};

use crate::directives::{align, data, global, section, space};
use crate::error::LineError;
use crate::instructions::{
    add_upper, against_zero, branch, call, fence, fixed, immediate, jump, jump_and_link,
    jump_and_link_register, jump_register, load, load_address, load_immediate, load_upper,
    of_register, registers, shift, store, swapped, unary, with_zero, zero_against,
};
use crate::line::{Labels, Line};
use crate::mnemonics::{Mnemonic, mnemonic_of};
use crate::name::{Name, name_in};
use crate::operands::{Operands, operands_in};
use crate::statement::Statement;
use byte_strings::{is_blank, parted, trimmed, without_leading_blanks};
use std::alloc::Global;

/// What a line says, or the first thing that is wrong with it. The line has no line feed.
///
/// - `Syntax`: what comes after its labels does not begin with a name, or a comma has no operand before or
///   after it.
/// - `UnknownInstruction`: the name is no mnemonic and no directive's.
/// - `BadOperand`: the mnemonic or directive takes operands of another number or form.
/// - `OutOfRange`: a number in it is outside the range of its operand.
/// - `NoMemory`: no memory was left for its labels or its items.
pub fn read_line<'a>(alloc: Global, line: &'a [u8]) -> Result<Line<'a>, LineError>
    ensures { OrNoMemory result (spec.read line.now) }
{
    match take_labels(alloc, without_comment(line)) {
        Ok(labelled) => {
            let statement = statement_in(alloc, trimmed(labelled.rest));
            line_of(labelled.labels, statement)
        }
        Err(error) => Err(error),
    }
}

fn line_of<'a>(
    labels: Labels<'a>,
    statement: Result<Option<Statement<'a>>, LineError>,
) -> Result<Line<'a>, LineError>
    ensures { result ≡ spec.line_of labels.entry statement.entry }
{
    match statement {
        Ok(statement) => Ok(Line { labels, statement }),
        Err(error) => Err(error),
    }
}

// The labels that a text begins with, and what comes after them.
#[derive(Drop)]
struct Labelled<'a> {
    pub labels: Labels<'a>,
    pub rest: &'a [u8],
}

fn take_labels<'a>(alloc: Global, text: &'a [u8]) -> Result<Labelled<'a>, LineError>
    ensures labels { IfOk result (λ l. l.labels ≡ spec.labels_of (fields 58 text.now)) }
    ensures rest { IfOk result (λ l. l.rest.now ≡ spec.rest_of (fields 58 text.now)) }
    ensures err { IfErr result (λ error. error ≡ LineError.NoMemory) }
{
    let mut labels = Vec::new(alloc);
    let mut rest = text;
    'labels: while let Some((prefix, after)) = parted(b':', rest) {
        let Some(label) = label_before(prefix) else {
            return Ok(Labelled {
                labels: Labels::new(labels),
                rest,
            });
        };
        if labels.push(label).is_err() {
            return Err(LineError::NoMemory);
        }
        rest = after;
    }
    Ok(Labelled {
        labels: Labels::new(labels),
        rest,
    })
}

// The label that a colon ends.
fn label_before(field: &[u8]) -> Option<Name<'_>>
    ensures { result ≡ spec.label_before field.now }
{
    name_in(without_leading_blanks(field))
}

/// What a line has before its comment, which a `#` begins; all of it where there is none.
pub fn without_comment(line: &[u8]) -> &[u8]
    ensures { result.now ≡ spec.without_comment line.now }
{
    match parted(b'#', line) {
        Some((content, _)) => content,
        None => line,
    }
}

// What a text states that has no blanks round it.
fn statement_in<'a>(alloc: Global, text: &'a [u8]) -> Result<Option<Statement<'a>>, LineError>
    ensures { OrNoMemory result (spec.statement_in text.now) }
{
    if text.is_empty() {
        return Ok(None);
    }
    let statement = match mnemonic_end(text) {
        Some(end) => said(alloc, &text[..end], trimmed(&text[end..])),
        None => said(alloc, text, b""),
    };
    match statement {
        Ok(statement) => Ok(Some(statement)),
        Err(error) => Err(error),
    }
}

// Where the first blank is.
fn mnemonic_end(text: &[u8]) -> Option<usize>
    ensures { result ≡ position is_blank text.now }
{
    text.iter().position(|b| is_blank(*b))
}

// What a mnemonic says of what comes after it.
fn said<'a>(alloc: Global, mnemonic: &[u8], text: &'a [u8]) -> Result<Statement<'a>, LineError>
    ensures { OrNoMemory result (spec.said mnemonic.now text.now) }
{
    let Some(name) = name_in(mnemonic) else {
        return Err(LineError::Syntax);
    };
    let Some(operands) = operands_in(text) else {
        return Err(LineError::Syntax);
    };
    match mnemonic_of(name.as_str()) {
        Some(mnemonic) => meaning(alloc, mnemonic, operands, text),
        None => Err(LineError::UnknownInstruction),
    }
}

#[tactic(auto, using(crate::proofs::Said::itself))]
fn meaning<'a>(
    alloc: Global,
    mnemonic: Mnemonic,
    operands: Operands<'a>,
    text: &'a [u8],
) -> Result<Statement<'a>, LineError>
    ensures { OrNoMemory result (spec.meaning mnemonic operands.entry text.now) }
{
    match mnemonic {
        Mnemonic::Registers(operation) => registers(operation, operands),
        Mnemonic::Immediate(operation) => immediate(operation, operands),
        Mnemonic::Shift(operation) => shift(operation, operands),
        Mnemonic::Load(operation) => load(operation, operands),
        Mnemonic::Store(operation) => store(operation, operands),
        Mnemonic::Branch(condition) => branch(condition, operands),
        Mnemonic::Swapped(condition) => swapped(condition, operands),
        Mnemonic::AgainstZero(condition) => against_zero(condition, operands),
        Mnemonic::ZeroAgainst(condition) => zero_against(condition, operands),
        Mnemonic::OfRegister(operation) => of_register(operation, operands),
        Mnemonic::WithZero(operation) => with_zero(operation, operands),
        Mnemonic::OfImmediate(operation) => unary(operation, operands),
        Mnemonic::LoadUpper => load_upper(operands),
        Mnemonic::AddUpper => add_upper(operands),
        Mnemonic::JumpAndLink => jump_and_link(operands),
        Mnemonic::JumpAndLinkRegister => jump_and_link_register(operands),
        Mnemonic::Jump => jump(operands),
        Mnemonic::JumpRegister => jump_register(operands),
        Mnemonic::LoadImmediate => load_immediate(operands),
        Mnemonic::LoadAddress => load_address(operands),
        Mnemonic::Call => call(operands),
        Mnemonic::Fixed(operation) => fixed(operation, operands),
        Mnemonic::Fence => fence(operands),
        Mnemonic::Data(width) => data(alloc, width, text),
        Mnemonic::Space => space(operands),
        Mnemonic::Align => align(operands),
        Mnemonic::Section => section(operands),
        Mnemonic::Global => global(operands),
    }
}

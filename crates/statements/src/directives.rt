//! What directives say of their operands.
ghost use Rattle.std.specs.Prelude.{◌≡◌, ◌<◌, length, Option, List, ℕ, map, not};
ghost use Rattle.std.specs.List.{list_all};
ghost use Rattle.statements.specs.Directives as spec;
ghost use Rattle.statements.specs.Instructions.{Said};
ghost use Rattle.statements.specs.Spelling.{is_name};
ghost use Rattle.byte_strings.specs.Blanks.{trimmed};

use crate::error::LineError;
use crate::forms::label_in;
use crate::items::{Item, Items, Width};
use crate::name::name_in;
use crate::number::{bits_in, constant_in};
use crate::operands::Operands;
use crate::statement::Statement;
use byte_strings::{first_field, trimmed};
use std::alloc::Global;

/// `.space number`.
pub(crate) fn space<'a>(operands: Operands<'a>) -> Result<Statement<'a>, LineError>
    ensures { result ≡ spec.space operands.entry }
{
    let Operands::One(number) = operands else {
        return Err(LineError::BadOperand);
    };
    let size = bits_in(0, 16_777_216, number.text())?;
    Ok(Statement::Space(size))
}

/// `.align number`.
pub(crate) fn align<'a>(operands: Operands<'a>) -> Result<Statement<'a>, LineError>
    ensures { result ≡ spec.align operands.entry }
{
    let Operands::One(number) = operands else {
        return Err(LineError::BadOperand);
    };
    let power = bits_in(0, 12, number.text())?;
    Ok(Statement::Align(power))
}

/// `.text` and `.data`.
pub(crate) fn section<'a>(operands: Operands<'a>) -> Result<Statement<'a>, LineError>
    ensures { result ≡ spec.section operands.entry }
{
    match operands {
        Operands::Zero => Ok(Statement::Nothing),
        _ => Err(LineError::BadOperand),
    }
}

/// `.globl name` and `.global name`.
pub(crate) fn global<'a>(operands: Operands<'a>) -> Result<Statement<'a>, LineError>
    ensures { result ≡ spec.global operands.entry }
{
    let Operands::One(name) = operands else {
        return Err(LineError::BadOperand);
    };
    let _ = label_in(name.text())?;
    Ok(Statement::Nothing)
}

fn item_in(width: Width, text: &[u8]) -> Result<Item<'_>, LineError>
    ensures { result ≡ spec.item_in width text.now }
{
    match width {
        Width::Byte => number_item(bits_in(128, 255, text)),
        Width::Half => number_item(bits_in(32_768, 65_535, text)),
        Width::Word => match name_in(text) {
            Some(label) => Ok(Item::Label(label)),
            None => number_item(constant_in(text)),
        },
    }
}

fn number_item<'a>(number: Result<u32, LineError>) -> Result<Item<'a>, LineError>
    ensures { result ≡ spec.number_item number }
{
    match number {
        Ok(number) => Ok(Item::Number(number)),
        Err(error) => Err(error),
    }
}

// Whether each of the fields of a text has the form of an item.
fn are_formed(width: Width, text: &[u8]) -> bool
    ensures { result ≡ spec.are_formed width text.now }
{
    let mut rest = Some(text);
    'fields: while let Some(fields) = rest {
        let (field, after) = first_field(b',', fields);
        if !is_formed(width, trimmed(field)) {
            return false;
        }
        rest = after;
    }
    true
}

fn is_formed(width: Width, text: &[u8]) -> bool
    ensures { result ≡ spec.is_formed width text.now }
{
    !matches!(item_in(width, text), Err(LineError::BadOperand))
}

/// A list of items. What has no such form is not looked at for its range.
pub(crate) fn data<'a>(
    alloc: Global,
    width: Width,
    text: &'a [u8],
) -> Result<Statement<'a>, LineError>
    ensures { spec.OrNoMemory result (spec.stated width text.now) }
{
    if text.is_empty() || !are_formed(width, text) {
        return Err(LineError::BadOperand);
    }
    let items = items_in(alloc, width, text)?;
    Ok(Statement::Data { width, items })
}

// The items in the fields of a text.
fn items_in<'a>(alloc: Global, width: Width, text: &'a [u8]) -> Result<Items<'a>, LineError>
    ensures { spec.OrNoMemory result (spec.items_in width text.now) }
{
    let mut list = Vec::new(alloc);
    let mut rest = Some(text);
    'fields: while let Some(fields) = rest {
        let (field, after) = first_field(b',', fields);
        let item = match item_in(width, trimmed(field)) {
            Ok(item) => item,
            Err(error) => return Err(error),
        };
        if list.push(item).is_err() {
            return Err(LineError::NoMemory);
        }
        rest = after;
    }
    Ok(Items::new(list))
}

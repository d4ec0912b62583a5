//! Operands.
ghost use Rattle.std.specs.Prelude.{map, false, ◌≡◌, ◌≤◌, ◌<◌, ◌+◌, ◌%◌, ◌^◌, ◌∷◌, ◌↔◌, [], true, IsSome, List, ℕ, length, Option, Some, None, Ok, IfOk, IfSome, if◌then◌else◌};
ghost use Rattle.std.specs.List.{list_all};
ghost use Rattle.std.specs.Option.{option_copied};
ghost use Rattle.statements.specs.Spelling.{is_name};
ghost use Rattle.byte_strings.specs.Blanks.{trimmed};
ghost use Rattle.byte_strings.specs.Fields.{fields_after};
ghost use Rattle.statements.specs.Numbers.{bits_in};
ghost use Rattle.statements.specs.Operands as spec;

use crate::error::LineError;
use crate::name::Name;
use crate::number::bits_in;
use crate::spelling::{is_name, stripped};
use crate::statement::Target;
use byte_strings::{first_field, trimmed};
use rv32i::{FenceSet, Imm, Reg, reg_of};
use std::marker::Model;

/// One operand, without the blanks round it. A contract sees its bytes.
#[derive(Drop)]
pub(crate) struct Operand<'a> {
    text: &'a [u8],
}

impl<'a> Model for Operand<'a> {
    ghost use Rattle.std.specs.Prelude.{List, ℕ};

    ghost Value = { List ℕ };

    ghost view = { λ o. o.text.now };
}

/// The operands after a mnemonic, by their number.
#[derive(Drop)]
pub(crate) enum Operands<'a> {
    /// There is none.
    Zero,
    /// There is one.
    One(Operand<'a>),
    /// There are two.
    Two(Operand<'a>, Operand<'a>),
    /// There are three.
    Three(Operand<'a>, Operand<'a>, Operand<'a>),
    /// There are more.
    More,
}

/// The operands in what comes after a mnemonic, which has no blanks round it. `None`: one of them is
/// blank.
pub(crate) fn operands_in(text: &[u8]) -> Option<Operands<'_>>
    ensures some { IfSome result (λ o. o ≡ spec.operands_in text.now) }
    ensures blank { IsSome result ↔ (spec.are_operands text.now ≡ true) }
{
    if text.is_empty() {
        return Some(Operands::Zero);
    }
    let (first, after) = first_operand(text)?;
    let Some(text) = after else {
        return Some(Operands::One(first));
    };
    let (second, after) = first_operand(text)?;
    let Some(text) = after else {
        return Some(Operands::Two(first, second));
    };
    let (third, after) = first_operand(text)?;
    let Some(text) = after else {
        return Some(Operands::Three(first, second, third));
    };
    if are_operands(text) {
        Some(Operands::More)
    } else {
        None
    }
}

// The first operand, and what comes after its comma. `None`: it is blank.
fn first_operand(text: &[u8]) -> Option<(Operand<'_>, Option<&[u8]>)>
    ensures some { IfSome result (λ p. spec.each_operand text.now ≡ p.0 ∷ map trimmed (fields_after 44 (option_copied p.1))) }
    ensures is { IfSome result (λ p. spec.is_operand p.0 ≡ true) }
    ensures smaller { IfSome result (λ p. IfSome p.1 (λ after. length after.now < length text.now)) }
    ensures blank { result ≡ None → list_all spec.is_operand (spec.each_operand text.now) ≡ false }
{
    let (field, after) = first_field(b',', text);
    let operand = Operand::new(field);
    if operand.text.is_empty() {
        return None;
    }
    Some((operand, after))
}

// Whether none of them is blank.
fn are_operands(text: &[u8]) -> bool
    ensures { result ≡ list_all spec.is_operand (spec.each_operand text.now) }
{
    let mut rest = Some(text);
    'fields: while let Some(fields) = rest {
        let Some((_, after)) = first_operand(fields) else {
            return false;
        };
        rest = after;
    }
    true
}

impl<'a> Operand<'a> {
    /// What stands between two commas, without the blanks round it.
    fn new(field: &'a [u8]) -> Operand<'a>
        ensures { result ≡ trimmed field.now }
    {
        Operand {
            text: trimmed(field),
        }
    }

    /// Its text.
    pub(crate) fn text(&self) -> &'a [u8]
        ensures { result.now ≡ self.now }
    {
        self.text
    }
}

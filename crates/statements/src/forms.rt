//! What an operand may be.
ghost use Rattle.std.specs.Prelude.{◌≡◌, ◌≤◌, ◌<◌, ◌+◌, ◌*◌, ◌%◌, ◌^◌, ◌∷◌, List, ℕ, length, codes, Option, Some, None, Ok, Err, IfOk, IfSome, if◌then◌else◌};
ghost use Rattle.std.specs.Option.{option_copied, option_map};
ghost use Rattle.statements.specs.Spelling.{is_name, named};
ghost use Rattle.statements.specs.Operands as spec;

use crate::error::LineError;
use crate::name::{Name, name_in};
use crate::number::bits_in;
use crate::spelling::stripped;
use crate::statement::Target;
use byte_strings::{parted, trimmed, without_leading_blanks};
use rv32i::{FenceSet, Imm, Reg, reg_in};

/// The lower 12 bits of something.
#[derive(Drop)]
pub(crate) enum Low<'a> {
    /// These.
    Bits(Imm),
    /// Those of a label's address.
    Part(Name<'a>),
}

/// An address: a register and an offset.
#[derive(Drop)]
pub(crate) struct Access<'a> {
    /// The offset.
    pub offset: Low<'a>,
    /// The register.
    pub base: Reg,
}

/// The register that a text names.
pub(crate) fn register_in(text: &[u8]) -> Result<Reg, LineError>
    ensures { result ≡ spec.register_in text.now }
{
    match reg_in(text) {
        Some(number) => Ok(Reg::new(number as u8)),
        None => Err(LineError::BadOperand),
    }
}

/// The label that a text names.
pub(crate) fn label_in(text: &[u8]) -> Result<Name<'_>, LineError>
    ensures { result ≡ spec.label_in text.now }
{
    match name_in(text) {
        Some(name) => Ok(name),
        None => Err(LineError::BadOperand),
    }
}

/// What stands before a closing bracket at the end, without the blanks round it.
fn closed(text: &[u8]) -> Option<&[u8]>
    ensures { option_copied result ≡ spec.closed text.now }
{
    match text.strip_suffix(b")") {
        Some(inner) => Some(trimmed(inner)),
        None => None,
    }
}

/// What stands in brackets, without the blanks round it.
fn bracketed(text: &[u8]) -> Option<&[u8]>
    ensures { option_copied result ≡ spec.bracketed text.now }
{
    match stripped(b"(", text) {
        Some(after) => closed(after),
        None => None,
    }
}

/// The label in brackets after `%lo` or `%hi`.
pub(crate) fn part_in(text: &[u8]) -> Result<Name<'_>, LineError>
    ensures { result ≡ spec.part_in text.now }
{
    match bracketed(without_leading_blanks(text)) {
        Some(label) => label_in(label),
        None => Err(LineError::BadOperand),
    }
}

fn immediate_in(text: &[u8]) -> Result<Imm, LineError>
    ensures { result ≡ spec.immediate_in text.now }
{
    match bits_in(2048, 2047, text) {
        Ok(bits) => Ok(Imm::new(bits)),
        Err(error) => Err(error),
    }
}

/// An immediate of 12 bits.
pub(crate) fn low_in(text: &[u8]) -> Result<Low<'_>, LineError>
    ensures { result ≡ spec.low_in text.now }
{
    match stripped(b"%lo", text) {
        Some(after) => part_low(part_in(after)),
        None => bits_low(immediate_in(text)),
    }
}

fn bits_low<'a>(bits: Result<Imm, LineError>) -> Result<Low<'a>, LineError>
    ensures { result ≡ spec.bits_low bits }
{
    match bits {
        Ok(bits) => Ok(Low::Bits(bits)),
        Err(error) => Err(error),
    }
}

fn part_low(label: Result<Name<'_>, LineError>) -> Result<Low<'_>, LineError>
    ensures { result ≡ spec.part_low label.entry }
{
    match label {
        Ok(label) => Ok(Low::Part(label)),
        Err(error) => Err(error),
    }
}

/// A register in brackets after an offset.
pub(crate) fn access_in(text: &[u8]) -> Result<Access<'_>, LineError>
    ensures { result ≡ spec.access_in text.now }
{
    match stripped(b"%lo", text) {
        Some(after) => part_access(stripped(b"(", without_leading_blanks(after))),
        None => plain_access(parted(b'(', text)),
    }
}

fn plain_access<'a>(parts: Option<(&'a [u8], &'a [u8])>) -> Result<Access<'a>, LineError>
    ensures { result ≡ spec.plain_access (option_map (λ p. (p.0.now, p.1.now)) parts.entry) }
{
    match parts {
        Some((offset, after)) => access_with(offset_in(trimmed(offset)), base_by(closed(after))),
        None => Err(LineError::BadOperand),
    }
}

fn part_access(text: Option<&[u8]>) -> Result<Access<'_>, LineError>
    ensures { result ≡ spec.part_access (option_copied text.entry) }
{
    let Some(text) = text else {
        return Err(LineError::BadOperand);
    };
    match parted(b')', text) {
        Some((label, after)) => access_with(
            part_low(label_in(trimmed(label))),
            base_by(bracketed(without_leading_blanks(after))),
        ),
        None => Err(LineError::BadOperand),
    }
}

fn offset_in(text: &[u8]) -> Result<Low<'_>, LineError>
    ensures { result ≡ spec.offset_in text.now }
{
    if text.is_empty() {
        return Ok(Low::Bits(Imm::new(0)));
    }
    bits_low(immediate_in(text))
}

fn base_by(name: Option<&[u8]>) -> Result<Reg, LineError>
    ensures { result ≡ spec.base_by (option_copied name.entry) }
{
    match name {
        Some(name) => register_in(name),
        None => Err(LineError::BadOperand),
    }
}

// What has no such form is not looked at for its range.
fn access_with(
    offset: Result<Low<'_>, LineError>,
    base: Result<Reg, LineError>,
) -> Result<Access<'_>, LineError>
    ensures { result ≡ spec.access_with offset.entry base }
{
    match base {
        Ok(base) => match offset {
            Ok(offset) => Ok(Access { offset, base }),
            Err(error) => Err(error),
        },
        Err(error) => Err(error),
    }
}

/// Where a jump or a branch goes.
pub(crate) fn target_in(text: &[u8]) -> Result<Target<'_>, LineError>
    ensures { result ≡ spec.target_in text.now }
{
    if let Some(label) = name_in(text) {
        return Ok(Target::Label(label));
    }
    match bits_in(0, 4_294_967_295, text) {
        Ok(address) => Ok(Target::Address(address)),
        Err(error) => Err(error),
    }
}

/// A set of accesses, by the letters of `iorw` in this order.
pub(crate) fn set_in(text: &[u8]) -> Result<FenceSet, LineError>
    ensures { result ≡ spec.set_in text.now }
{
    match name_in(text) {
        Some(name) => set_named(name.as_str()),
        None => Err(LineError::BadOperand),
    }
}

fn set_named(name: &str) -> Result<FenceSet, LineError>
    ensures { result ≡ spec.set_in name.now }
{
    match set_number(name) {
        Some(number) => Ok(FenceSet::new(number)),
        None => Err(LineError::BadOperand),
    }
}

fn set_number(name: &str) -> Option<u8>
    ensures value { result ≡ named spec.sets name.now }
    ensures small { IfSome result (λ number. number < 16) }
{
    match name {
        "w" => Some(1),
        "r" => Some(2),
        "rw" => Some(3),
        "o" => Some(4),
        "ow" => Some(5),
        "or" => Some(6),
        "orw" => Some(7),
        "i" => Some(8),
        "iw" => Some(9),
        "ir" => Some(10),
        "irw" => Some(11),
        "io" => Some(12),
        "iow" => Some(13),
        "ior" => Some(14),
        "iorw" => Some(15),
        _ => None,
    }
}

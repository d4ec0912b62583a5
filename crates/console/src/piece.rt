//! Pieces of what is shown: words, and facts of the machine.
ghost use Rattle.std.specs.Prelude.{◌≡◌, ◌<◌, ◌++◌, IfOk, OnOk, string_bytes};
ghost use Rattle.rv32i.specs.Texts.{hex_digit as digit};
ghost use Rattle.console.specs.Texts as spec;

use facts::{BreakInfo, FrameInfo, RunState};
use rv32i::{push_digits, reg_name};
use std::alloc::{AllocError, Global};

/// What a piece is, for those who colour it.
#[derive(Clone, Copy, Debug, PartialEq, Eq)]
pub enum Tone {
    /// The debugger's own words.
    Plain,
    /// What the program printed.
    Program,
    /// Why something was not done.
    Refusal,
    /// The line where the program stands.
    Here,
    /// A fact of the machine.
    Fact,
}

/// How a register is shown.
#[derive(Clone, Copy, Debug, PartialEq, Eq)]
pub enum Form {
    /// Its name, and its value as a hexadecimal, an unsigned and a signed number, and as a character where it is one.
    Line,
    /// Its name and its value in hexadecimal, as wide as each other one.
    Cell,
}

/// A list of breakpoints.
#[derive(Clone, Copy, Debug, PartialEq, Eq)]
pub enum Listed {
    /// Those at lines of the program's text.
    Source,
    /// Those at addresses.
    Instructions,
    /// Those at labels.
    Functions,
}

/// A piece of what is shown. All but `Words` and `Unknown` are facts of the machine.
#[derive(Drop)]
pub enum Piece {
    /// Words.
    Words(Tone, String),
    /// Whether the machine runs.
    Run(RunState),
    /// The register of a number, or pc, which is 32, and its value.
    Register(Form, u32, u32),
    /// The word of memory at an address, by its bytes; the first is the low one.
    Word(u32, u8, u8, u8, u8),
    /// The byte of memory at an address.
    Byte(u32, u8),
    /// The frame at an index; the innermost is 0.
    Frame(u32, FrameInfo),
    /// The breakpoint at an index, from 0, of a list.
    Break(Listed, usize, BreakInfo),
    /// A fact that is not known.
    Unknown,
}

impl Piece {
    /// What it is, for those who colour it.
    pub fn tone(&self) -> Tone
        ensures { result ≡ spec.tone_of self.now }
    {
        match self {
            Piece::Words(tone, _) => *tone,
            _ => Tone::Fact,
        }
    }

    /// Its text. It fails where no memory is left.
    pub fn text(&self, alloc: Global) -> Result<String, AllocError>
        ensures { IfOk result (λ text. string_bytes text ≡ spec.text_of self.now) }
    {
        match self {
            Piece::Words(_, words) => words.clone(),
            Piece::Run(state) => run_text(alloc, *state),
            Piece::Register(Form::Line, number, value) => register_line(alloc, *number, *value),
            Piece::Register(Form::Cell, number, value) => register_cell(alloc, *number, *value),
            Piece::Word(_, first, second, third, fourth) => {
                word_text(alloc, *first, *second, *third, *fourth)
            }
            Piece::Byte(_, value) => byte_text(alloc, *value),
            Piece::Frame(_, frame) => frame_text(alloc, frame),
            Piece::Break(_, _, found) => address_text(alloc, found.address),
            Piece::Unknown => String::from_str(alloc, "?"),
        }
    }
}

fn run_text(alloc: Global, state: RunState) -> Result<String, AllocError>
    ensures { IfOk result (λ text. string_bytes text ≡ spec.run_text state) }
{
    match state {
        RunState::Unknown => String::from_str(alloc, "unknown"),
        RunState::Running => String::from_str(alloc, "running"),
        RunState::Stopped => String::from_str(alloc, "stopped"),
        RunState::Ended(None) => String::from_str(alloc, "ended"),
        RunState::Ended(Some(code)) => format!(in alloc; "ended with exit code {code}"),
    }
}

fn register_line(alloc: Global, number: u32, value: u32) -> Result<String, AllocError>
    ensures { IfOk result (λ text. string_bytes text ≡ spec.register_line number value) }
{
    let mut text = String::from_str(alloc, register_name(number))?;
    let value = value_text(alloc, value)?;
    text.push_str(" = ")?;
    text.push_str(value.as_str())?;
    Ok(text)
}

fn register_cell(alloc: Global, number: u32, value: u32) -> Result<String, AllocError>
    ensures { IfOk result (λ text. string_bytes text ≡ spec.register_cell number value) }
{
    let name = register_name(number);
    let mut text = String::from_str(alloc, name)?;
    let value = address_text(alloc, value)?;
    text.push_str(gap(name.len()))?;
    text.push_str(value.as_str())?;
    Ok(text)
}

// The blanks after a name of this length.
fn gap(length: usize) -> &'static str
    ensures { result.now ≡ spec.gap length }
{
    match length {
        2 => "   ",
        3 => "  ",
        _ => " ",
    }
}

fn frame_text(alloc: Global, frame: &FrameInfo) -> Result<String, AllocError>
    ensures { IfOk result (λ text. string_bytes text ≡ spec.frame_text frame.now) }
{
    let mut text = address_text(alloc, frame.address)?;
    if text.as_str() == frame.name.as_str() {
        return Ok(text);
    }
    text.push(' ')?;
    text.push_str(frame.name.as_str())?;
    Ok(text)
}

fn word_text(
    alloc: Global,
    first: u8,
    second: u8,
    third: u8,
    fourth: u8,
) -> Result<String, AllocError>
    ensures { IfOk result (λ text. string_bytes text ≡ spec.word_text first second third fourth) }
{
    let mut text = String::from_str(alloc, "0x")?;
    push_byte(&mut text, fourth)?;
    push_byte(&mut text, third)?;
    push_byte(&mut text, second)?;
    push_byte(&mut text, first)?;
    Ok(text)
}

fn byte_text(alloc: Global, value: u8) -> Result<String, AllocError>
    ensures { IfOk result (λ text. string_bytes text ≡ spec.byte_text value) }
{
    let mut text = String::new(alloc);
    push_byte(&mut text, value)?;
    Ok(text)
}

// A byte in two hexadecimal digits.
fn push_byte(text: &mut String, value: u8) -> Result<(), AllocError>
    ensures { OnOk result (string_bytes text.new ≡ string_bytes text.old ++ spec.byte_text value) }
{
    text.push(hex_digit(value / 16))?;
    text.push(hex_digit(value % 16))
}

fn hex_digit(value: u8) -> char
    requires { value < 16 }
    ensures { result ≡ digit value }
{
    if value < 10 {
        char::from(value + 48)
    } else {
        char::from(value + 87)
    }
}

/// The name of the register of a number from 0 to 31, and `pc` of another.
pub(crate) fn register_name(number: u32) -> &'static str
    ensures { result.now ≡ spec.register_name number }
{
    if number < 32 { reg_name(number) } else { "pc" }
}

/// `0x` and the eight hexadecimal digits of a word.
pub(crate) fn address_text(alloc: Global, word: u32) -> Result<String, AllocError>
    ensures { IfOk result (λ text. string_bytes text ≡ spec.address_text word) }
{
    let mut text = String::from_str(alloc, "0x")?;
    push_digits(&mut text, word)?;
    Ok(text)
}

/// A value in hexadecimal and as an unsigned number; as a signed one where that is below 0, and as the character that it is in ASCII, if it
/// is one that can be seen.
pub(crate) fn value_text(alloc: Global, value: u32) -> Result<String, AllocError>
    ensures { IfOk result (λ text. string_bytes text ≡ spec.value_text value) }
{
    let mut text = address_text(alloc, value)?;
    let number = value.to_string(alloc)?;
    text.push_str("  ")?;
    text.push_str(number.as_str())?;
    push_rest(alloc, &mut text, value)?;
    Ok(text)
}

// What else a value is: a number below 0, or a character.
fn push_rest(alloc: Global, text: &mut String, value: u32) -> Result<(), AllocError>
    ensures { OnOk result (string_bytes text.new ≡ string_bytes text.old ++ spec.rest_text value) }
{
    if value < 0x8000_0000 {
        push_character(text, value)
    } else {
        let number = value.cast_signed().to_string(alloc)?;
        text.push_str("  ")?;
        text.push_str(number.as_str())
    }
}

fn push_character(text: &mut String, value: u32) -> Result<(), AllocError>
    requires { value < 2147483648 }
    ensures { OnOk result (string_bytes text.new ≡ string_bytes text.old ++ spec.rest_text value) }
{
    match u8::try_from(value) {
        Ok(byte @ 33..=126) => {
            text.push_str("  '")?;
            text.push(char::from(byte))?;
            text.push('\'')
        }
        _ => Ok(()),
    }
}

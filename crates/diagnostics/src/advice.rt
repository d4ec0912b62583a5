//! What is wrong with an operand, and what to write in its place.

use crate::forms::Form;
use crate::kinds::{Kind, is_of};
use crate::literals::{binary, character, negated};
use crate::nearest::takes;
use crate::operands::{Operand, operand_at, operand_text, text_of};
use byte_strings::parted;
use statements::is_name;
use std::alloc::{AllocError, Global};

/// A statement whose mnemonic is known.
#[derive(Clone, Copy)]
pub(crate) struct Said<'a> {
    /// The mnemonic or directive.
    pub mnemonic: &'a str,
    /// What it takes.
    pub form: Form,
    /// Its operands.
    pub operands: &'a [u8],
}

impl<'a> Said<'a> {
    // The text of its first operand.
    fn first(&self) -> &'a str {
        operand_text(self.operands)
    }

    // A register that none of its operands is.
    fn spare(&self) -> &'static str {
        if has_text(text_of(self.operands), "t0") {
            "t1"
        } else {
            "t0"
        }
    }
}

/// Whether a text has another in it.
pub(crate) fn has_text(text: &str, other: &str) -> bool {
    text.find(other).is_some()
}

/// Whether a text has the beginning of a comment of another assembler in it.
pub(crate) fn has_comment(text: &str) -> bool {
    has_text(text, "//") || has_text(text, "/*")
}

/// The first character of a text that is not ASCII.
pub(crate) fn strange_in(text: &str) -> Option<char> {
    text.chars().find(|c| !c.is_ascii())
}

/// What is told of a character that is not ASCII, which stands here.
pub(crate) fn strange_words(alloc: Global, found: char, here: &str) -> Result<String, AllocError> {
    let code = u32::from(found);
    match code {
        0x2010..=0x2015 | 0x2212 => format!(in alloc; "U+{code:04X} in {here}: write -"),
        0x200b..=0x200f | 0xfeff | 0xa0 => format!(in alloc;
            "U+{code:04X}, which is not seen, in {here}: leave it out"
        ),
        _ => format!(in alloc; "U+{code:04X} in {here}"),
    }
}

/// What is told of an operand that has another form than its mnemonic takes. `Err`: no memory was left.
pub(crate) fn form_words(
    alloc: Global,
    said: &Said,
    operand: Operand,
) -> Result<String, AllocError> {
    if let Some(found) = strange_in(operand.text) {
        let here = here_of(alloc, operand)?;
        return strange_words(alloc, found, here.as_str());
    }
    if has_comment(operand.text) {
        return String::from_str(alloc, "a comment begins with #");
    }
    if let Some(name) = operand.text.strip_prefix("$") {
        return format!(in alloc; "${name}: registers have no $: {name}");
    }
    let words = match operand.kind {
        Kind::Register => register_words(alloc, said, operand)?,
        Kind::Access => access_words(alloc, said, operand)?,
        Kind::Label | Kind::Target => label_words(alloc, operand)?,
        Kind::Set => None,
        _ => number_words(alloc, said, operand)?,
    };
    match words {
        Some(words) => Ok(words),
        None => plain_words(alloc, operand),
    }
}

fn here_of(alloc: Global, operand: Operand) -> Result<String, AllocError> {
    let number = operand.index.saturating_add(1);
    format!(in alloc; "operand {number}")
}

fn plain_words(alloc: Global, operand: Operand) -> Result<String, AllocError> {
    let here = here_of(alloc, operand)?;
    let lack = operand.kind.lack();
    format!(in alloc; "{here}: {lack}")
}

// The mnemonic that takes a number in place of the last register.
fn with_number(mnemonic: &str) -> Option<&'static str> {
    match mnemonic {
        "add" => Some("addi"),
        "and" => Some("andi"),
        "or" => Some("ori"),
        "xor" => Some("xori"),
        "sll" => Some("slli"),
        "srl" => Some("srli"),
        "sra" => Some("srai"),
        "slt" => Some("slti"),
        "sltu" => Some("sltiu"),
        _ => None,
    }
}

// The mnemonic that takes a register in place of the number.
fn with_register(mnemonic: &str) -> Option<&'static str> {
    match mnemonic {
        "addi" => Some("add"),
        "andi" => Some("and"),
        "ori" => Some("or"),
        "xori" => Some("xor"),
        "slli" => Some("sll"),
        "srli" => Some("srl"),
        "srai" => Some("sra"),
        "slti" => Some("slt"),
        "sltiu" => Some("sltu"),
        "li" => Some("mv"),
        _ => None,
    }
}

// A number stands where a register has to.
fn register_words(
    alloc: Global,
    said: &Said,
    operand: Operand,
) -> Result<Option<String>, AllocError> {
    let text = operand.text;
    if !is_of(alloc, Kind::Constant, text)? {
        return Ok(None);
    }
    let mnemonic = said.mnemonic;
    let usage = said.form.usage();
    if operand.index == 2 && mnemonic == "sub" {
        if let Some(number) = negated(alloc, text)? {
            return Ok(Some(format!(in alloc; "sub takes {usage}: addi with {number}")?));
        }
    }
    if operand.index == 2 {
        if let Some(other) = with_number(mnemonic) {
            return Ok(Some(format!(in alloc; "{mnemonic} takes {usage}: with a number {other}")?));
        }
    }
    let here = here_of(alloc, operand)?;
    let spare = said.spare();
    Ok(Some(format!(in alloc; "{here}: not a register; li {spare}, {text} and then {spare}")?))
}

// A name, or a number alone, stands where an address has to.
fn access_words(
    alloc: Global,
    said: &Said,
    operand: Operand,
) -> Result<Option<String>, AllocError> {
    let Said { mnemonic, .. } = *said;
    let text = operand.text;
    if is_of(alloc, Kind::Register, text)? {
        return Ok(Some(format!(in alloc; "{mnemonic} takes imm(reg): 0({text})")?));
    }
    if is_of(alloc, Kind::Constant, text)? {
        return Ok(Some(format!(in alloc;
            "{mnemonic} takes imm(reg): {text} and then a register in brackets"
        )?));
    }
    if !is_name(text.as_bytes()) || mnemonic == "jalr" {
        return Ok(None);
    }
    let first = said.first();
    let base = if mnemonic.starts_with("s") {
        said.spare()
    } else {
        first
    };
    Ok(Some(format!(in alloc;
        "{mnemonic} takes imm(reg): la {base}, {text} and then {mnemonic} {first}, 0({base})"
    )?))
}

// A numbered label, or a sum.
fn label_words(alloc: Global, operand: Operand) -> Result<Option<String>, AllocError> {
    let text = operand.text;
    if let [b'0'..=b'9', .., b'f' | b'b'] = text.as_bytes() {
        return Ok(Some(format!(in alloc; "{text}: a label begins with a letter, _ or .")?));
    }
    if has_arithmetic(text) {
        return Ok(Some(String::from_str(alloc, "no sums here: the label alone, and then addi")?));
    }
    Ok(None)
}

// Whether a text has an operator after its first byte.
fn has_arithmetic(text: &str) -> bool {
    match text.as_bytes() {
        [] => false,
        [_, rest @ ..] => rest
            .iter()
            .any(|b| *b == b'+' || *b == b'-' || *b == b'*' || *b == b'/'),
    }
}

// What stands where a number has to: a character, a number in binary, a string, a register, a sum or a name.
fn number_words(
    alloc: Global,
    said: &Said,
    operand: Operand,
) -> Result<Option<String>, AllocError> {
    let text = operand.text;
    if let Some(number) = character(alloc, text)? {
        return Ok(Some(format!(in alloc; "no characters: {number}")?));
    }
    if let Some(number) = binary(alloc, text)? {
        return Ok(Some(format!(in alloc; "no binary numbers: {number}")?));
    }
    if text.starts_with("\"") {
        return Ok(Some(String::from_str(alloc, "no strings: write the bytes as numbers")?));
    }
    if is_of(alloc, Kind::Register, text)? {
        return instead_of_number(alloc, said);
    }
    if has_arithmetic(text) {
        return Ok(Some(String::from_str(alloc, "no sums here: write the number")?));
    }
    if is_name(text.as_bytes()) {
        return named_number(alloc, said, operand);
    }
    Ok(None)
}

// A register stands where a number has to.
fn instead_of_number(alloc: Global, said: &Said) -> Result<Option<String>, AllocError> {
    let mnemonic = said.mnemonic;
    let usage = said.form.usage();
    match with_register(mnemonic) {
        Some(other) if takes(alloc, other, text_of(said.operands))? => Ok(Some(format!(in alloc;
            "{mnemonic} takes {usage}: with a register {other}"
        )?)),
        _ => Ok(None),
    }
}

// A name stands where a number has to.
fn named_number(
    alloc: Global,
    said: &Said,
    operand: Operand,
) -> Result<Option<String>, AllocError> {
    let here = here_of(alloc, operand)?;
    let text = operand.text;
    let first = said.first();
    let words = match said.form {
        Form::LoadImmediate => {
            format!(in alloc;
                "{here}: not a number; write that of {text}, or la {first}, {text} for its address"
            )?
        }
        _ => format!(in alloc; "{here}: not a number; write that of {text}")?,
    };
    Ok(Some(words))
}

/// What is told of an operand with a number outside its range. `Err`: no memory was left.
pub(crate) fn range_words(alloc: Global, operand: Operand) -> Result<String, AllocError> {
    let number = match parted(b'(', operand.text.as_bytes()) {
        Some((number, _)) => text_of(byte_strings::trimmed(number)),
        None => operand.text,
    };
    let range = operand.kind.range();
    format!(in alloc; "{number} is not in {range}")
}

/// What is told of a statement with too few operands or too many. `Err`: no memory was left.
pub(crate) fn count_words(alloc: Global, said: &Said, count: usize) -> Result<String, AllocError> {
    let text = text_of(said.operands);
    if let Some(found) = strange_in(text) {
        return strange_words(alloc, found, "the operands");
    }
    if has_comment(text) || has_text(text, ";") {
        return String::from_str(
            alloc,
            "a line has one statement, and a comment begins with #",
        );
    }
    let mnemonic = said.mnemonic;
    let usage = said.form.usage();
    if let Some(word) = before_a_blank(said.operands, count) {
        return format!(in alloc; "{mnemonic} takes {usage}: a comma is missing after {word}");
    }
    match count {
        0 => format!(in alloc; "{mnemonic} takes {usage}: none stands here"),
        1 => format!(in alloc; "{mnemonic} takes {usage}: 1 operand stands here"),
        _ => format!(in alloc; "{mnemonic} takes {usage}: {count} operands stand here"),
    }
}

// What stands before the first blank that is inside an operand.
fn before_a_blank(operands: &[u8], count: usize) -> Option<&str> {
    for index in 0..count.min(3) {
        if let Some(part) = operand_at(operands, index) {
            let text = operand_text(part);
            if let Some((word, _)) = parted(b' ', text.as_bytes()) {
                return Some(text_of(word));
            }
        }
    }
    None
}

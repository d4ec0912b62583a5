//! What is wrong with the form of a line, or with its mnemonic.

use crate::advice::{has_comment, has_text, strange_in, strange_words};
use crate::explaining::explanation;
use crate::foreign::foreign_words;
use crate::forms::form_of;
use crate::nearest::{in_small_letters, nearest_mnemonic};
use crate::operands::{operand_text, text_of};
use crate::parts::{mnemonic_of, operands_of};
use assembler::AsmErrorKind;
use byte_strings::{parted, trimmed};
use std::alloc::{AllocError, Global};

/// What is told of a statement whose first word is no name. `Err`: no memory was left.
pub(crate) fn nameless_words(alloc: Global, statement: &[u8]) -> Result<String, AllocError> {
    let text = text_of(statement);
    let word = text_of(mnemonic_of(statement));
    if text.starts_with("\u{feff}") {
        return String::from_str(
            alloc,
            "a byte order mark, U+FEFF, stands here: save the text without it",
        );
    }
    if let Some(found) = strange_in(word) {
        return strange_words(alloc, found, "the mnemonic");
    }
    if begins_comment(text) || has_comment(word) {
        return String::from_str(alloc, "a comment begins with #");
    }
    if has_text(word, ";") {
        return String::from_str(
            alloc,
            "a line has one statement, and a comment begins with #",
        );
    }
    if let Some((label, _)) = parted(b':', statement) {
        return bad_label_words(alloc, text_of(trimmed(label)));
    }
    if has_text(word, "=") {
        return String::from_str(alloc, "numbers have no names here; write the number");
    }
    String::from_str(alloc, explanation(AsmErrorKind::Syntax))
}

fn begins_comment(text: &str) -> bool {
    text.starts_with("//")
        || text.starts_with("/*")
        || text.starts_with(";")
        || text.starts_with("@")
        || text.starts_with("--")
        || text.starts_with("*")
}

fn bad_label_words(alloc: Global, label: &str) -> Result<String, AllocError> {
    match label.as_bytes() {
        [b'0'..=b'9' | b'$', ..] => {
            format!(in alloc; "{label}: a label begins with a letter, _ or .")
        }
        _ => format!(in alloc; "{label}: a label has letters, digits, _, . and $ alone"),
    }
}

/// What is told of a blank operand. `Err`: no memory was left.
pub(crate) fn blank_words(alloc: Global, index: usize) -> Result<String, AllocError> {
    let number = index.saturating_add(1);
    format!(in alloc; "operand {number} is blank: a comma too many")
}

/// What is told of a statement whose mnemonic is unknown. `Err`: no memory was left.
pub(crate) fn unknown_words(
    alloc: Global,
    statement: &[u8],
    guesses: bool,
) -> Result<String, AllocError> {
    let name = text_of(mnemonic_of(statement));
    let operands = operands_of(statement);
    if let Some(words) = foreign_words(alloc, name, operands)? {
        return Ok(words);
    }
    let text = text_of(operands);
    if text.starts_with(":") {
        return format!(in alloc; "{name}: no blank stands before the colon of a label");
    }
    if text.starts_with("=") {
        return format!(in alloc; "{name}: numbers have no names here; write the number");
    }
    if let Some(small) = in_small_letters(alloc, name)? {
        return format!(in alloc; "{name}: {small}, in small letters");
    }
    if guesses {
        if let Some(near) = nearest_mnemonic(alloc, name, text)? {
            return format!(in alloc; "{name}: {near}?");
        }
    }
    if form_of(text_of(mnemonic_of(operand_text(operands).as_bytes()))).is_some() {
        return format!(in alloc; "{name}: a label has a colon after it");
    }
    String::from_str(alloc, explanation(AsmErrorKind::UnknownInstruction))
}

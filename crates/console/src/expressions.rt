//! Expressions: labels in them are addresses, and characters numbers; what has no value is told why.

use crate::asking::{Answer, words_of};
use crate::console::Console;
use crate::piece::address_text;
use crate::stops::text_of;
use image::LineTable;
use protocol::{Command, EvaluateArguments, Refusal};
use replies::ResponseBody;
use rv32i::reg_named;
use std::alloc::{AllocError, Global};
use std::str;

/// A part of an expression.
#[derive(Drop)]
pub(crate) enum Token<'a> {
    /// A name: a register's, or a label's.
    Name(&'a [u8]),
    /// A character between quotes.
    Character(u8),
    /// Digits, or a sign.
    Other(&'a [u8]),
}

impl Console {
    /// The value of an expression. Where it has none, why is said.
    pub(crate) fn value_of(&mut self, text: &str) -> Result<Option<u32>, AllocError> {
        let expression = self.with_addresses(text)?;
        match self.evaluate(expression.as_str())? {
            Answer::Done(ResponseBody::Evaluate(body)) => Ok(Some(body.result)),
            Answer::Refused(Refusal::BadExpression, _) => {
                self.explain(text)?;
                Ok(None)
            }
            other => {
                drop(self.is_done(other)?);
                Ok(None)
            }
        }
    }

    /// The value of an expression whose labels are addresses. `None`: it has none.
    pub(crate) fn evaluated(&mut self, expression: &str) -> Result<Option<u32>, AllocError> {
        match self.evaluate(expression)? {
            Answer::Done(ResponseBody::Evaluate(body)) => Ok(Some(body.result)),
            _ => Ok(None),
        }
    }

    fn evaluate(&mut self, expression: &str) -> Result<Answer, AllocError> {
        let expression = text_of(self.alloc, expression)?;
        self.ask(Command::Evaluate(EvaluateArguments {
            expression,
            frame_id: None,
        }))
    }

    /// An expression with the addresses of its labels in their places, and the numbers of its characters.
    pub(crate) fn with_addresses(&self, text: &str) -> Result<String, AllocError> {
        let mut expression = Vec::new(self.alloc);
        let mut rest = text.as_bytes();
        for _ in 0..text.len() {
            let (token, after) = token_in(rest);
            self.push_token(&mut expression, token)?;
            rest = after;
        }
        match String::from_utf8(expression) {
            Ok(expression) => Ok(expression),
            Err(_) => String::from_str(self.alloc, text),
        }
    }

    fn push_token(&self, expression: &mut Vec<u8>, token: Token<'_>) -> Result<(), AllocError> {
        match token {
            Token::Name(name) => match self.address_named(name) {
                Some(address) => {
                    let text = address_text(self.alloc, address)?;
                    expression.extend_from_slice(text.as_bytes())
                }
                None => expression.extend_from_slice(name),
            },
            Token::Character(byte) => {
                let text = byte.to_string(self.alloc)?;
                expression.extend_from_slice(text.as_bytes())
            }
            Token::Other(text) => expression.extend_from_slice(text),
        }
    }

    // The address of the label of a name that is no register's.
    fn address_named(&self, name: &[u8]) -> Option<u32> {
        if is_register(name) {
            return None;
        }
        match str::from_utf8(name) {
            Ok(name) => self.label_address(name),
            Err(_) => None,
        }
    }

    /// The address of the label of a name.
    pub(crate) fn label_address(&self, name: &str) -> Option<u32> {
        self.lines()?.label_address(name)
    }

    /// Where the lines and labels of the program are.
    pub(crate) fn lines(&self) -> Option<&LineTable> {
        match &self.image {
            Some(image) => Some(&image.lines),
            None => None,
        }
    }

    // Says why an expression has no value: a name that nothing has, or an address outside memory; or only that.
    fn explain(&mut self, text: &str) -> Result<(), AllocError> {
        if let Some(words) = self.unknown_in(text)? {
            return self.refuse(words.as_str());
        }
        if let Some(words) = self.outside_in(text)? {
            return self.refuse(words.as_str());
        }
        let alloc = self.alloc;
        let words = format!(in alloc; "{text}: no expression")?;
        self.refuse(words.as_str())
    }

    fn unknown_in(&self, text: &str) -> Result<Option<String>, AllocError> {
        let alloc = self.alloc;
        match self.unknown_name(text.as_bytes()) {
            Some(name) => match str::from_utf8(name) {
                Ok(name) => Ok(Some(format!(in alloc; "{name} is no register and no label")?)),
                Err(_) => Ok(None),
            },
            None => Ok(None),
        }
    }

    // The first name in a text that neither a register nor a label has.
    fn unknown_name<'a>(&self, text: &'a [u8]) -> Option<&'a [u8]> {
        let mut rest = text;
        for _ in 0..text.len() {
            let (token, after) = token_in(rest);
            if let Token::Name(name) = token
                && !is_register(name)
                && self.address_named(name).is_none()
            {
                return Some(name);
            }
            rest = after;
        }
        None
    }

    // Of the innermost brackets that come first: that their address is outside memory, if it is.
    fn outside_in(&mut self, text: &str) -> Result<Option<String>, AllocError> {
        let Some(inner) = innermost(text) else {
            return Ok(None);
        };
        let expression = self.with_addresses(inner)?;
        let Some(address) = self.evaluated(expression.as_str())? else {
            return Ok(None);
        };
        if self.has_word(address)? {
            return Ok(None);
        }
        let alloc = self.alloc;
        let address = address_text(alloc, address)?;
        Ok(Some(format!(in alloc; "[{inner}]: {address} is outside memory")?))
    }

    /// Whether memory has a word at an address; the mirror then has it.
    pub(crate) fn has_word(&mut self, address: u32) -> Result<bool, AllocError> {
        match self.ask_memory(address, 4)? {
            Answer::Done(ResponseBody::ReadMemory(body)) => Ok(body.unreadable_bytes == 0),
            _ => Ok(false),
        }
    }
}

// The text in the first pair of brackets that has none in it.
fn innermost(text: &str) -> Option<&str> {
    let (before, _) = text.split_once(']')?;
    let (_, inner) = before.rsplit_once('[')?;
    Some(inner)
}

fn is_register(name: &[u8]) -> bool {
    if name == b"pc".as_slice() || name == b"fp".as_slice() {
        return true;
    }
    reg_named(name).is_some() || is_numbered(name)
}

// Whether a name is `x` and digits.
fn is_numbered(name: &[u8]) -> bool {
    match name {
        [b'x', digits @ ..] => !digits.is_empty() && digits.iter().all(|b| b.is_ascii_digit()),
        _ => false,
    }
}

fn is_name_byte(byte: u8) -> bool {
    byte.is_ascii_alphanumeric() || byte == b'_' || byte == b'.' || byte == b'$'
}

/// The first part of an expression, and what follows it.
pub(crate) fn token_in(text: &[u8]) -> (Token<'_>, &[u8]) {
    match text {
        [b'\'', byte, b'\'', rest @ ..] => (Token::Character(*byte), rest),
        [first, ..] if first.is_ascii_digit() => {
            let (digits, rest) = named(text);
            (Token::Other(digits), rest)
        }
        [first, ..] if is_name_byte(*first) => {
            let (name, rest) = named(text);
            (Token::Name(name), rest)
        }
        [_, rest @ ..] => (Token::Other(first_of(text)), rest),
        [] => (Token::Other(text), text),
    }
}

// The first byte, as a text.
fn first_of(text: &[u8]) -> &[u8] {
    match text.split_at_checked(1) {
        Some((first, _)) => first,
        None => text,
    }
}

// The bytes of a name or a number at the beginning, and what follows them.
fn named(text: &[u8]) -> (&[u8], &[u8]) {
    let length = text.iter().take_while(|byte| is_name_byte(**byte)).count();
    match text.split_at_checked(length) {
        Some(parts) => parts,
        None => (text, b""),
    }
}

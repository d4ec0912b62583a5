//! What is written of a text so far.
ghost use Rattle.std.specs.Prelude.{◌≡◌, OnOk};
ghost use Rattle.convert.specs.Private.Drafts.{AddsLine, KeepsLines};

use crate::calls::{EXIT, is_known, lead_to_call, number_in_a7};
use crate::comments::code_of;
use crate::converting::Conversion;
use crate::directives::{ends_part, is_section};
use crate::fields::{after_prefix, fields, indentation, word_of};
use crate::local_labels::{LocalLabels, local_number};
use crate::names::Names;
use crate::operands::Known;
use crate::places::{end_of, is_code, is_misaligned};
use crate::remark::{Reason, Remark, kind_of};
use crate::rewriting::{NO_MACROS, Rewritten, push_statement, stands};
use byte_strings::trimmed;
use image::FIRST_ADDRESS;
use rv32i::Instr;
use statements::{Line, LineError, Statement, read_line, without_comment};
use std::alloc::{AllocError, Global};

const EXITS: &str = "call 10 ends a program elsewhere: here call 93 does, with the exit code in a0";

const NO_CALL: &str =
    "there is no such call of the environment: call 1 prints the number in a0, and call 93 ends the program";

const NO_NUMBER: &str =
    "the number of a call is in a7 here, and what it prints in a0: Venus has them in a0 and a1";

const BEGINS: &str = "a program begins at _start here, not at main";

const NO_SUMS: &str =
    "there are no sums of a label and a number here: put a label there, or add the number afterwards";

const MISALIGNED: &str =
    "this is not at a multiple of its size, where a load traps: write .align 1 or .align 2 before it, as RARS does by itself";

/// A line, and those after it.
#[derive(Clone, Copy)]
pub(crate) struct Source<'a> {
    /// Its number, from 1 on.
    pub number: usize,
    /// The line, without its line feed.
    pub line: &'a [u8],
    /// The lines after it.
    pub following: &'a [&'a str],
}

/// Facts of a text as a whole.
#[derive(Clone, Copy)]
pub(crate) struct Whole {
    /// It says where the program begins.
    pub has_start: bool,
    /// It names a7.
    pub has_a7: bool,
}

/// What is written of a text so far, and what is told of it.
#[derive(Drop)]
pub(crate) struct Draft {
    conversion: Conversion,
    /// The line of the text that each line comes from.
    origins: Vec<usize>,
    known: Known,
    whole: Whole,
    in_comment: bool,
    in_part: bool,
    has_code: bool,
}

impl Draft {
    /// Nothing is written yet.
    pub(crate) fn new(alloc: Global, whole: Whole) -> Draft {
        Draft {
            conversion: Conversion {
                text: Vec::new(alloc),
                notes: Vec::new(alloc),
                errors: Vec::new(alloc),
            },
            origins: Vec::new(alloc),
            known: Known {
                names: Names::new(alloc, FIRST_ADDRESS),
                locals: LocalLabels::new(alloc),
            },
            whole,
            in_comment: false,
            in_part: false,
            has_code: false,
        }
    }

    /// What is written, and the line of the text that each line comes from.
    pub(crate) fn into_parts(self) -> (Conversion, Vec<usize>)
        ensures { result.1 ≡ self.origins }
    {
        let Draft {
            conversion,
            origins,
            known: _,
            whole: _,
            in_comment: _,
            in_part: _,
            has_code: _,
        } = self;
        (conversion, origins)
    }

    /// Writes a line more.
    pub(crate) fn take(&mut self, alloc: Global, source: Source) -> Result<(), AllocError>
        ensures { OnOk result (AddsLine self.old self.new) }
    {
        let (name, _) = word_of(trimmed(source.line));
        if self.in_part {
            self.in_part = !ends_part(name);
            return self.push_comment(alloc, source);
        }
        let begins_section = !self.in_comment && is_section(name);
        self.take_code(alloc, source)?;
        if begins_section && self.known.names.here % 4 != 0 {
            return self.add(alloc, source, b"        .align 2");
        }
        Ok(())
    }

    fn take_code(&mut self, alloc: Global, source: Source) -> Result<(), AllocError>
        ensures { OnOk result (AddsLine self.old self.new) }
    {
        if !self.in_comment && stands(alloc, source.line, &self.known.names)? {
            return self.add(alloc, source, source.line);
        }
        let code = code_of(alloc, source.line, &mut self.in_comment)?;
        if stands(alloc, code.as_slice(), &self.known.names)? {
            return self.keep(alloc, source, code.as_slice());
        }
        self.rewrite(alloc, source, code.as_slice())
    }

    // A line whose code stands: only its comments are of another form.
    fn keep(&mut self, alloc: Global, source: Source, code: &[u8]) -> Result<(), AllocError>
        ensures { OnOk result (AddsLine self.old self.new) }
    {
        if trimmed(code).is_empty() {
            return self.push_comment(alloc, source);
        }
        let comment = match comment_after(source.line, code) {
            Some(comment) => comment,
            None => trimmed(source.line),
        };
        let text = with_comment(alloc, indentation(source.line), trimmed(code), comment)?;
        self.add(alloc, source, text.as_slice())
    }

    fn rewrite(&mut self, alloc: Global, source: Source, code: &[u8]) -> Result<(), AllocError>
        ensures { OnOk result (AddsLine self.old self.new) }
    {
        let mut text = Vec::new(alloc);
        for statement in fields(alloc, b';', code)?.as_slice() {
            match self.push_labelled(alloc, &mut text, *statement)? {
                Rewritten::Said => {}
                Rewritten::Unsaid(why) => return self.refuse(source, why),
                Rewritten::Part => {
                    self.in_part = true;
                    return self.refuse(source, NO_MACROS);
                }
            }
        }
        if text.as_slice() == trimmed(code) {
            return self.keep(alloc, source, code);
        }
        self.emit(alloc, source, text.as_slice())
    }

    // What can't be said stays as it was.
    fn refuse(&mut self, source: Source, why: &'static str) -> Result<(), AllocError>
        ensures { OnOk result (AddsLine self.old self.new) }
    {
        self.push_error(source.number, Reason::Words(why))?;
        self.push_line(source.number, source.line)
    }

    // Labels and a statement, after a line feed where there is something before them.
    fn push_labelled(
        &mut self,
        alloc: Global,
        text: &mut Vec<u8>,
        statement: &[u8],
    ) -> Result<Rewritten, AllocError>
        ensures { OnOk result (KeepsLines self.old self.new) }
    {
        if !text.is_empty() && !statement.is_empty() {
            text.push(b'\n')?;
        }
        let parts = fields(alloc, b':', statement)?;
        let Some((last, labels)) = parts.as_slice().split_last() else {
            return Ok(Rewritten::Said);
        };
        for label in labels {
            self.push_label(alloc, text, *label)?;
        }
        if last.is_empty() {
            return Ok(Rewritten::Said);
        }
        push_statement(alloc, text, *last, &mut self.known)
    }

    fn push_label(
        &mut self,
        alloc: Global,
        text: &mut Vec<u8>,
        label: &[u8],
    ) -> Result<(), AllocError>
        ensures { OnOk result (KeepsLines self.old self.new) }
    {
        match local_number(label) {
            Some(number) => self.known.locals.push_definition(alloc, text, number)?,
            None => text.extend_from_slice(label)?,
        }
        text.extend_from_slice(b": ")
    }

    // What a line became, with the line itself as a comment after the first.
    fn emit(&mut self, alloc: Global, source: Source, text: &[u8]) -> Result<(), AllocError>
        ensures { OnOk result (AddsLine self.old self.new) }
    {
        if text.is_empty() {
            return self.push_comment(alloc, source);
        }
        let indentation = indentation(source.line);
        let (first, others) = first_line(text);
        let line = with_comment(alloc, indentation, trimmed(first), trimmed(source.line))?;
        self.add(alloc, source, line.as_slice())?;
        for line in others.split(|b| *b == b'\n') {
            if !trimmed(line).is_empty() {
                let line = joined(alloc, indentation, trimmed(line), b"")?;
                self.add(alloc, source, line.as_slice())?;
            }
        }
        Ok(())
    }

    // A line of this language, or one that is told as an error.
    fn add(&mut self, alloc: Global, source: Source, text: &[u8]) -> Result<(), AllocError>
        ensures { OnOk result (AddsLine self.old self.new) }
    {
        match read_line(alloc, text) {
            Ok(line) => self.add_read(alloc, source, text, &line),
            Err(LineError::NoMemory) => Err(AllocError),
            Err(error) => {
                self.push_error(source.number, reason_of(error, source.line))?;
                self.push_line(source.number, text)
            }
        }
    }

    fn add_read(
        &mut self,
        alloc: Global,
        source: Source,
        text: &[u8],
        line: &Line,
    ) -> Result<(), AllocError>
        ensures { OnOk result (AddsLine self.old self.new) }
    {
        for label in line.labels.as_slice() {
            self.add_label(alloc, source, label.as_str())?;
        }
        match &line.statement {
            Some(statement) => self.add_statement(alloc, source, text, statement),
            None => self.push_line(source.number, text),
        }
    }

    fn add_label(&mut self, alloc: Global, source: Source, label: &str) -> Result<(), AllocError>
        ensures { OnOk result (KeepsLines self.old self.new) }
    {
        if label == "main" && self.has_code && !self.whole.has_start {
            self.push_note(source.number, BEGINS)?;
            self.push_line(source.number, b"_start:")?;
        }
        self.known.names.set_label(alloc, label.as_bytes())
    }

    fn add_statement(
        &mut self,
        alloc: Global,
        source: Source,
        text: &[u8],
        statement: &Statement,
    ) -> Result<(), AllocError>
        ensures { OnOk result (AddsLine self.old self.new) }
    {
        let here = self.known.names.here;
        if is_misaligned(statement, here) {
            self.push_note(source.number, MISALIGNED)?;
        }
        self.has_code = self.has_code || is_code(statement);
        self.known.names.here = end_of(statement, here);
        if self.is_exit(alloc, source, statement)? {
            return self.push_exit(alloc, source, text);
        }
        self.push_line(source.number, text)
    }

    // Whether a statement leads to the call that ends a program elsewhere. What is wrong with other calls is told.
    fn is_exit(
        &mut self,
        alloc: Global,
        source: Source,
        statement: &Statement,
    ) -> Result<bool, AllocError>
        ensures { OnOk result (KeepsLines self.old self.new) }
    {
        if matches!(statement, Statement::One(Instr::Ecall)) && !self.whole.has_a7 {
            self.push_error(source.number, Reason::Words(NO_NUMBER))?;
        }
        let Some(number) = number_in_a7(statement) else {
            return Ok(false);
        };
        if is_known(number) || !lead_to_call(alloc, source.following)? {
            return Ok(false);
        }
        if number != EXIT {
            self.push_error(source.number, Reason::Words(NO_CALL))?;
        }
        Ok(number == EXIT)
    }

    // Call 93 with the exit code 0, in place of call 10.
    fn push_exit(&mut self, alloc: Global, source: Source, text: &[u8]) -> Result<(), AllocError>
        ensures { OnOk result (AddsLine self.old self.new) }
    {
        self.push_note(source.number, EXITS)?;
        self.known.names.here = self.known.names.here.saturating_add(4);
        let indentation = indentation(source.line);
        let code = labelled(alloc, labels_of(text), b"li a0, 0")?;
        let first = with_comment(alloc, indentation, code.as_slice(), trimmed(source.line))?;
        self.push_line(source.number, first.as_slice())?;
        let second = joined(alloc, indentation, b"li a7, 93", b"")?;
        self.push_line(source.number, second.as_slice())
    }

    // The line itself as a comment.
    fn push_comment(&mut self, alloc: Global, source: Source) -> Result<(), AllocError>
        ensures { OnOk result (AddsLine self.old self.new) }
    {
        let line = trimmed(source.line);
        if line.is_empty() {
            return self.push_line(source.number, line);
        }
        let text = joined(alloc, indentation(source.line), b"# ", line)?;
        self.push_line(source.number, text.as_slice())
    }

    fn push_line(&mut self, number: usize, line: &[u8]) -> Result<(), AllocError>
        ensures { OnOk result (AddsLine self.old self.new) }
    {
        self.conversion.text.extend_from_slice(line)?;
        self.conversion.text.push(b'\n')?;
        self.origins.push(number)?;
        Ok(())
    }

    fn push_note(&mut self, line: usize, words: &'static str) -> Result<(), AllocError>
        ensures { OnOk result (KeepsLines self.old self.new) }
    {
        self.conversion.notes.push(Remark {
            line,
            reason: Reason::Words(words),
        })?;
        Ok(())
    }

    fn push_error(&mut self, line: usize, reason: Reason) -> Result<(), AllocError>
        ensures { OnOk result (KeepsLines self.old self.new) }
    {
        self.conversion.errors.push(Remark { line, reason })?;
        Ok(())
    }
}

// Why what a line became can't be read: a sum in the line has a label in it.
fn reason_of(error: LineError, line: &[u8]) -> Reason {
    match error {
        LineError::BadOperand if without_comment(line).contains(&b'+') => Reason::Words(NO_SUMS),
        _ => Reason::Assembler(kind_of(error)),
    }
}

// The first of the lines of a text, and the others.
fn first_line(text: &[u8]) -> (&[u8], &[u8]) {
    match text.iter().position(|b| *b == b'\n') {
        Some(end) => (&text[..end], &text[end + 1..]),
        None => (text, b""),
    }
}

// The labels of a line that is read.
fn labels_of(text: &[u8]) -> &[u8] {
    let code = without_comment(text);
    match code.iter().rposition(|b| *b == b':') {
        Some(end) if end < code.len() => trimmed(&code[..end + 1]),
        _ => b"",
    }
}

// A statement after labels, if there are any.
fn labelled(alloc: Global, labels: &[u8], statement: &[u8]) -> Result<Vec<u8>, AllocError> {
    if labels.is_empty() {
        return Vec::from_slice(alloc, statement);
    }
    joined(alloc, labels, b" ", statement)
}

// What a line has after its code, where the code begins it.
fn comment_after<'a>(line: &'a [u8], code: &[u8]) -> Option<&'a [u8]> {
    let rest = line.strip_prefix(indentation(code))?;
    after_prefix(rest, trimmed(code))
}

// A line of code, with a comment after it if there is one.
fn with_comment(
    alloc: Global,
    indentation: &[u8],
    code: &[u8],
    comment: &[u8],
) -> Result<Vec<u8>, AllocError> {
    let mut text = joined(alloc, indentation, code, b"")?;
    if !comment.is_empty() {
        text.extend_from_slice(b"  # ")?;
        text.extend_from_slice(comment)?;
    }
    Ok(text)
}

fn joined(alloc: Global, first: &[u8], second: &[u8], third: &[u8]) -> Result<Vec<u8>, AllocError> {
    let mut text = Vec::from_slice(alloc, first)?;
    text.extend_from_slice(second)?;
    text.extend_from_slice(third)?;
    Ok(text)
}

//! The parts of a line: its labels, its statement, and the mnemonic and the operands of that. Each part reaches up to the comment, so
//! that its length says where it begins.

ghost use Rattle.std.specs.Prelude.{◌≡◌, ◌<◌, ◌==◌, ◌∷◌, length, position, IfSome};
ghost use Rattle.std.specs.Option.{option_copied, option_map};
ghost use Rattle.byte_strings.specs.Blanks.{is_blank, without_leading_blanks};
ghost use Rattle.diagnostics.specs.Parts as spec;
ghost use Rattle.statements.specs.Spelling.{is_name};

use byte_strings::{is_blank, parted, without_leading_blanks};
use statements::{is_name, without_comment};

/// What a line has after its labels, without the blanks before it.
pub(crate) fn statement_of(line: &[u8]) -> &[u8]
    ensures { result.now ≡ spec.statement_of line.now }
{
    without_leading_blanks(after_labels(without_comment(line)))
}

// What comes after the labels of a text.
fn after_labels(text: &[u8]) -> &[u8]
    ensures { result.now ≡ spec.after_labels text.now }
{
    let mut rest = text;
    'labels: while let Some((prefix, after)) = parted(b':', rest) {
        if is_label(prefix) {
            rest = after;
        } else {
            return rest;
        }
    }
    rest
}

// Whether a field before a colon is a label.
fn is_label(field: &[u8]) -> bool
    ensures { result ≡ is_name (without_leading_blanks field.now) }
{
    is_name(without_leading_blanks(field))
}

/// A line from the label of an index on, if it has that many.
pub(crate) fn label_part(line: &[u8], index: usize) -> &[u8] {
    let mut rest = without_comment(line);
    for _ in 0..index {
        match parted(b':', rest) {
            Some((_, after)) => rest = after,
            None => return rest,
        }
    }
    without_leading_blanks(rest)
}

// Where the first blank is.
fn mnemonic_end(text: &[u8]) -> Option<usize>
    ensures { result ≡ position is_blank text.now }
{
    text.iter().position(|b| is_blank(*b))
}

/// The mnemonic of a statement: what stands before its first blank.
pub(crate) fn mnemonic_of(statement: &[u8]) -> &[u8]
    ensures { result.now ≡ spec.mnemonic_of statement.now }
{
    match mnemonic_end(statement) {
        Some(end) => &statement[..end],
        None => statement,
    }
}

/// The operands of a statement, without the blanks before them.
pub(crate) fn operands_of(statement: &[u8]) -> &[u8]
    ensures { result.now ≡ spec.operands_of statement.now }
{
    match mnemonic_end(statement) {
        Some(end) => without_leading_blanks(&statement[end..]),
        None => b"",
    }
}

/// The column, counted in bytes from 1, at which a part of a line begins.
pub(crate) fn column_of(line: &[u8], part: &[u8]) -> u32
    ensures value { result ≡ spec.column_of line.now part.now }
    ensures within { spec.IsWithin line.now result }
{
    let before = without_comment(line).len().saturating_sub(part.len());
    if before < u32::MAX as usize {
        before as u32 + 1
    } else {
        u32::MAX
    }
}

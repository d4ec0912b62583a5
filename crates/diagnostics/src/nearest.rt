//! The name that was meant, by how many letters differ, lack, are too many or are exchanged.

use crate::forms::{FORMS, form_of};
use statements::{LineError, read_line};
use std::alloc::{AllocError, Global};
use strsim::osa_distance;

/// How many bytes a name has at most that others are compared with.
const LONGEST: usize = 24;

// How many letters of a name may be wrong.
fn most_edits(name: &str) -> usize {
    if name.len() < 5 { 1 } else { 2 }
}

/// How far a name is from another, if it is near. `Err`: no memory was left.
pub(crate) fn distance(
    alloc: Global,
    name: &str,
    other: &str,
) -> Result<Option<usize>, AllocError> {
    let most = most_edits(name);
    if name.len() > LONGEST || name.len().abs_diff(other.len()) > most {
        return Ok(None);
    }
    let edits = osa_distance(alloc, name, other)?;
    if edits <= most && edits < other.len() {
        Ok(Some(edits))
    } else {
        Ok(None)
    }
}

/// The mnemonic or directive that is nearest to a name; of equally near ones, one that takes the operands. `Err`: no memory was left.
pub(crate) fn nearest_mnemonic(
    alloc: Global,
    name: &str,
    operands: &str,
) -> Result<Option<&'static str>, AllocError> {
    let mut best = None;
    let mut least = usize::MAX;
    for form in FORMS.iter() {
        for known in form.names() {
            if let Some(edits) = distance(alloc, name, known)? {
                let rank = rank_of(edits, takes(alloc, known, operands)?);
                if rank < least {
                    least = rank;
                    best = Some(*known);
                }
            }
        }
    }
    Ok(best)
}

// The fewer edits the better, and of equally many those to a mnemonic that takes the operands.
fn rank_of(edits: usize, takes: bool) -> usize {
    edits.saturating_mul(2).saturating_add(usize::from(!takes))
}

/// Whether a mnemonic takes these operands. `Err`: no memory was left.
pub(crate) fn takes(alloc: Global, mnemonic: &str, operands: &str) -> Result<bool, AllocError> {
    let line = format!(in alloc; "{mnemonic} {operands}")?;
    let can = can_be_read(alloc, line.as_bytes());
    drop(line);
    can
}

fn can_be_read(alloc: Global, line: &[u8]) -> Result<bool, AllocError> {
    match read_line(alloc, line) {
        Ok(read) => {
            drop(read);
            Ok(true)
        }
        Err(LineError::NoMemory) => Err(AllocError),
        Err(_) => Ok(false),
    }
}

/// The mnemonic that a name is in small letters, if it is none as it stands. `Err`: no memory was left.
pub(crate) fn in_small_letters(alloc: Global, name: &str) -> Result<Option<String>, AllocError> {
    let small = name.to_ascii_lowercase(alloc)?;
    match form_of(small.as_str()) {
        Some(_) => Ok(Some(small)),
        None => Ok(None),
    }
}

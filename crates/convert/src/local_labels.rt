//! Numeric labels: `1:` as often as one likes, `1b` the last before a line, `1f` the next after it ("Using as", section 5.3).

use numerals::numeral;
use std::alloc::{AllocError, Global};
use std::collections::BTreeMap;

/// How often each number was a label so far.
#[derive(Drop)]
pub(crate) struct LocalLabels {
    counts: BTreeMap<u32, u32>,
}

impl LocalLabels {
    /// None was so far.
    pub(crate) fn new(alloc: Global) -> LocalLabels {
        LocalLabels {
            counts: BTreeMap::new(alloc),
        }
    }

    /// A number is a label once more, and this is the name of it here.
    pub(crate) fn push_definition(
        &mut self,
        alloc: Global,
        text: &mut Vec<u8>,
        number: u32,
    ) -> Result<(), AllocError> {
        let count = self.count(number).wrapping_add(1);
        self.counts.insert(number, count)?;
        push_name(alloc, text, number, count)
    }

    /// The name of the label that `1b` or `1f` means. `false`: the operand is of neither form.
    pub(crate) fn push_reference(
        &self,
        alloc: Global,
        text: &mut Vec<u8>,
        operand: &[u8],
    ) -> Result<bool, AllocError> {
        let Some((digits, is_next)) = parts_of(operand) else {
            return Ok(false);
        };
        let Some(number) = local_number(digits) else {
            return Ok(false);
        };
        let count = self.count(number);
        let meant = if is_next {
            count.wrapping_add(1)
        } else {
            count
        };
        push_name(alloc, text, number, meant)?;
        Ok(true)
    }

    fn count(&self, number: u32) -> u32 {
        match self.counts.get(&number) {
            Some(count) => *count,
            None => 0,
        }
    }
}

// The digits of a reference, and whether it means the next label.
fn parts_of(operand: &[u8]) -> Option<(&[u8], bool)> {
    match operand {
        [digits @ .., b'f'] => Some((digits, true)),
        [digits @ .., b'b'] => Some((digits, false)),
        _ => None,
    }
}

/// The number of a numeric label.
pub(crate) fn local_number(digits: &[u8]) -> Option<u32> {
    match numeral(10, digits) {
        Ok(number) => Some(number),
        Err(_) => None,
    }
}

fn push_name(alloc: Global, text: &mut Vec<u8>, number: u32, count: u32) -> Result<(), AllocError> {
    let name = format!(in alloc; "local{number}_{count}")?;
    text.extend_from_slice(name.as_bytes())
}

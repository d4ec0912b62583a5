//! What names mean that were given a number.

use crate::fields::is_name_byte;
use std::alloc::{AllocError, Global};
use std::collections::BTreeMap;

// What a name means.
#[derive(Clone, Copy, PartialEq, Eq)]
enum Meaning {
    // A number.
    Constant(i64),
    // The address of a label.
    Address(u32),
}

/// The names of constants and labels so far, and the address that is reached.
#[derive(Drop)]
pub(crate) struct Names {
    meanings: BTreeMap<Vec<u8>, Meaning>,
    /// The address of what comes next.
    pub here: u32,
}

impl Names {
    /// No names yet.
    pub(crate) fn new(alloc: Global, here: u32) -> Names {
        Names {
            meanings: BTreeMap::new(alloc),
            here,
        }
    }

    /// From now on the name means this number.
    pub(crate) fn set_constant(
        &mut self,
        alloc: Global,
        name: &[u8],
        value: i64,
    ) -> Result<(), AllocError> {
        self.set(alloc, name, Meaning::Constant(value))
    }

    /// The name is a label of what comes next.
    pub(crate) fn set_label(&mut self, alloc: Global, name: &[u8]) -> Result<(), AllocError> {
        self.set(alloc, name, Meaning::Address(self.here))
    }

    fn set(&mut self, alloc: Global, name: &[u8], meaning: Meaning) -> Result<(), AllocError> {
        let name = Vec::from_slice(alloc, name)?;
        self.meanings.insert(name, meaning)?;
        Ok(())
    }

    /// The number that a constant means. `None`: the name is no constant.
    pub(crate) fn constant(&self, name: &[u8]) -> Option<i64> {
        match self.meanings.get(name) {
            Some(Meaning::Constant(value)) => Some(*value),
            _ => None,
        }
    }

    /// Whether a constant is named in a text.
    pub(crate) fn has_constant_in(&self, text: &[u8]) -> bool {
        text.split(|byte| !is_name_byte(*byte))
            .any(|word| self.constant(word).is_some())
    }

    /// What a name is worth in a sum: a constant, an address, or the place for `.`.
    pub(crate) fn value(&self, name: &[u8]) -> Option<i64> {
        if matches!(name, b".") {
            return Some(i64::from(self.here));
        }
        match self.meanings.get(name) {
            Some(Meaning::Constant(value)) => Some(*value),
            Some(Meaning::Address(address)) => Some(i64::from(*address)),
            None => None,
        }
    }
}

//! Bytes of memory.
ghost use Rattle.std.specs.Prelude.{◌≡◌, ◌+◌, IfOk, OnOk, []};
ghost use Rattle.mirror.specs.Folding.{over};
ghost use Rattle.mirror.specs.Kept.{PlaceIs, at};

use std::alloc::{AllocError, Global};
use std::collections::BTreeMap;
use std::marker::Model;

/// The bytes of memory that were told, by address. A contract sees the entries.
#[derive(Drop)]
pub(crate) struct Memory {
    map: BTreeMap<u32, u8>,
}

impl Model for Memory {
    ghost use Rattle.std.specs.Prelude.{List, ℕ};

    ghost Value = { List (ℕ × ℕ) };

    ghost view = { λ m. m.map.entries };
}

impl Memory {
    /// None was told. It takes no memory.
    pub(crate) fn new(alloc: Global) -> Memory
        ensures { result ≡ [] }
    {
        Memory {
            map: BTreeMap::new(alloc),
        }
    }

    /// The byte at an address.
    pub(crate) fn get(&self, address: u32) -> Option<u8>
        ensures { result ≡ at self.now address }
    {
        self.map.get(&address).copied()
    }

    /// A copy of these bytes. It fails where no memory is left.
    pub(crate) fn copied(&self) -> Result<Memory, AllocError>
        ensures { IfOk result (λ copy. copy ≡ self.now) }
    {
        Ok(Memory {
            map: self.map.clone()?,
        })
    }

    /// Bytes are told, from an address on. Where no memory is left, some may be.
    pub(crate) fn tell(&mut self, first: u32, bytes: &[u8]) -> Result<(), AllocError>
        ensures { OnOk result (at self.new ≡ over first bytes.now (at self.old)) }
    {
        let mut place = Some(first);
        for byte in bytes {
            match place {
                Some(address) => {
                    self.map.insert(address, *byte)?;
                    place = after(address);
                }
                None => break,
            }
        }
        Ok(())
    }
}

/// The place after one; after the last of 32 bits there is none.
pub(crate) fn after(place: u32) -> Option<u32>
    ensures { PlaceIs result (place + 1) }
{
    place.checked_add(1)
}

//! Memory as pages, each made at its first write.

ghost use Rattle.std.specs.Prelude.{
  ◌≡◌,
  ◌+◌,
  ◌*◌,
  ◌^◌,
  ◌%◌,
  ◌≤◌,
  ℕ,
  [],
  ◌∷◌,
  length,
  replicate,
  None,
  IfOk,
};
ghost use Rattle.image.specs.Memory.{
  byte_at,
  bytes_at,
  fault_at,
  halfword_at,
  halfword_bytes,
  memory_after,
  first_address,
  unless_fault,
  word_at,
  word_bytes,
  WritesOrLacks,
};

use crate::page::{self, PAGE};
use crate::words::{bytes_at_index, halfword_at_index};
use crate::{MemFault, table};
use std::alloc::{AllocError, Global};
use std::marker::Model;

/// The lowest address that has a byte.
pub const FIRST_ADDRESS: u32 = 0x0001_0000;

/// Memory of a fixed size, from 0x00010000 on (RISC-V Unprivileged ISA 20191213, section 1.4). A
/// contract sees its bytes in the order of their addresses. Its pages of 4,096 bytes take no room
/// until they are written first.
#[derive(Drop)]
pub struct Memory {
    alloc: Global,
    pages: Vec<Vec<u8>>,
}

impl Model for Memory {
    ghost use Rattle.std.specs.Prelude.{List, ℕ};
    ghost use Rattle.image.specs.Private.Pages.{AreWhole, flat};

    ghost Value = { List ℕ };

    ghost view = { λ m. flat m.pages.items };

    ghost invariant = { λ m. AreWhole m.pages.items };
}

impl Memory {
    /// Memory in which each byte is 0, or the library's error where there is no room for its table of
    /// pages. `base` is 0x00010000; `size` is the number of bytes, a multiple of 4,096 from 4,096 to
    /// 16,777,216.
    pub fn new(alloc: Global, base: u32, size: u32) -> Result<Memory, AllocError>
        requires base { base ≡ 65536 }
        requires whole { size % 4096 ≡ 0 }
        requires some { 4096 ≤ size }
        requires few { size ≤ 16777216 }
        ensures { IfOk result (λ memory. memory ≡ replicate size 0) }
    {
        prove!(base == FIRST_ADDRESS);
        let pages = table::blanks(alloc, size as usize / PAGE)?;
        Ok(Memory { alloc, pages })
    }

    /// A memory with these bytes. It fails where no memory is left.
    pub fn copied(&self, alloc: Global) -> Result<Memory, AllocError>
        ensures { IfOk result (λ copy. copy ≡ self.now) }
    {
        let pages = table::copies(alloc, self.pages.as_slice())?;
        Ok(Memory { alloc, pages })
    }

    /// The byte at an address; `None`: it has none.
    #[inline]
    pub fn byte(&self, addr: u32) -> Option<u8>
        ensures { result ≡ byte_at self.now addr }
    {
        let place = addr.wrapping_sub(FIRST_ADDRESS) as usize;
        let index = place / PAGE;
        if index >= self.pages.len() {
            return None;
        }
        let page = &self.pages[index];
        let offset = place % PAGE;
        if offset < page.len() {
            Some(page[offset])
        } else {
            Some(0)
        }
    }

    /// The little-endian halfword at an address. `Misaligned`: the address is odd; else `Outside`: one
    /// of the two bytes is not there.
    #[inline]
    pub fn half(&self, addr: u32) -> Result<u16, MemFault>
        ensures { result ≡ halfword_at self.now addr }
    {
        if addr % 2 != 0 {
            return Err(MemFault::Misaligned);
        }
        let place = addr.wrapping_sub(FIRST_ADDRESS) as usize;
        let index = place / PAGE;
        if index >= self.pages.len() {
            return Err(MemFault::Outside);
        }
        let page = &self.pages[index];
        let offset = place % PAGE;
        if offset + 2 <= page.len() {
            Ok(halfword_at_index(page, offset))
        } else {
            Ok(0)
        }
    }

    /// The little-endian word at an address. `Misaligned`: the address is no multiple of 4; else
    /// `Outside`: one of the four bytes is not there.
    #[inline]
    pub fn word(&self, addr: u32) -> Result<u32, MemFault>
        ensures { result ≡ word_at self.now addr }
    {
        match self.word_bytes(addr) {
            Ok(bytes) => Ok(u32::from_le_bytes(bytes)),
            Err(fault) => Err(fault),
        }
    }

    /// The four bytes of the word at an address, in the order of their addresses. `Misaligned`: the
    /// address is no multiple of 4; else `Outside`: one of them is not there.
    #[inline]
    pub fn word_bytes(&self, addr: u32) -> Result<[u8; 4], MemFault>
        ensures { result ≡ unless_fault (fault_at self.now 4 addr 4) (bytes_at self.now addr 4) }
    {
        if addr % 4 != 0 {
            return Err(MemFault::Misaligned);
        }
        let place = addr.wrapping_sub(FIRST_ADDRESS) as usize;
        let index = place / PAGE;
        if index >= self.pages.len() {
            return Err(MemFault::Outside);
        }
        let page = &self.pages[index];
        let offset = place % PAGE;
        if offset + 4 <= page.len() {
            Ok(bytes_at_index(page, offset))
        } else {
            Ok([0; 4])
        }
    }

    /// Copies the bytes from an address on into `into`, as many as it has room for. `Outside`: one of
    /// them is not there, and then `into` is left as it was.
    pub fn read(&self, addr: u32, into: &mut [u8]) -> Result<(), MemFault>
        ensures answers { result ≡ unless_fault (fault_at self.now 1 addr (length into.old)) tt }
        ensures leaves { into.new
            ≡ memory_after (fault_at self.now 1 addr (length into.old))
            (bytes_at self.now addr (length into.old)) into.old }
    {
        if into.is_empty() {
            return Ok(());
        }
        let place = addr.wrapping_sub(FIRST_ADDRESS) as usize;
        if place + into.len() > self.pages.len() * PAGE {
            return Err(MemFault::Outside);
        }
        table::read_bytes(self.pages.as_slice(), place, into);
        Ok(())
    }

    // Writes bytes that lie in one page, from an address on whose alignment was looked at.
    #[inline]
    fn store(&mut self, addr: u32, bytes: &[u8]) -> Result<(), MemFault>
        requires some { 1 ≤ length bytes.now }
        requires within { addr % 4096 + length bytes.now ≤ 4096 }
        ensures { (aligned : ℕ) → addr % aligned ≡ 0
            → WritesOrLacks aligned self.old addr bytes.now result self.new }
    {
        let place = addr.wrapping_sub(FIRST_ADDRESS) as usize;
        let index = place / PAGE;
        if index >= self.pages.len() {
            return Err(MemFault::Outside);
        }
        let page = &mut self.pages[index];
        let Ok(()) = page::store(self.alloc, page, place % PAGE, bytes) else {
            return Err(MemFault::NoMemory);
        };
        Ok(())
    }

    /// Writes a byte. `Outside`: the address has none; `NoMemory`: no memory is left for its page.
    /// Either way nothing is written.
    #[inline]
    pub fn write_byte(&mut self, addr: u32, value: u8) -> Result<(), MemFault>
        ensures { WritesOrLacks 1 self.old addr (value ∷ []) result self.new }
    {
        self.store(addr, &[value])
    }

    /// Writes a little-endian halfword. `Misaligned`: the address is odd; else `Outside`: one of the two
    /// bytes is not there; else `NoMemory`: no memory is left for the page. Then nothing is written.
    #[inline]
    pub fn write_half(&mut self, addr: u32, value: u16) -> Result<(), MemFault>
        ensures { WritesOrLacks 2 self.old addr (halfword_bytes value) result self.new }
    {
        if addr % 2 != 0 {
            return Err(MemFault::Misaligned);
        }
        self.store(addr, &value.to_le_bytes())
    }

    /// Writes a little-endian word. `Misaligned`: the address is no multiple of 4; else `Outside`: one
    /// of the four bytes is not there; else `NoMemory`: no memory is left for the page. Then nothing is
    /// written.
    #[inline]
    pub fn write_word(&mut self, addr: u32, value: u32) -> Result<(), MemFault>
        ensures { WritesOrLacks 4 self.old addr (word_bytes value) result self.new }
    {
        if addr % 4 != 0 {
            return Err(MemFault::Misaligned);
        }
        self.store(addr, &value.to_le_bytes())
    }

    /// Writes bytes from an address on. `Outside`: one of the addresses has no byte; else `NoMemory`:
    /// no memory is left for one of their pages. Then nothing is written. No bytes can be written
    /// anywhere.
    pub fn write(&mut self, addr: u32, bytes: &[u8]) -> Result<(), MemFault>
        ensures { WritesOrLacks 1 self.old addr bytes.now result self.new }
    {
        if bytes.is_empty() {
            return Ok(());
        }
        let place = addr.wrapping_sub(FIRST_ADDRESS) as usize;
        let end = place + bytes.len();
        if end > self.pages.len() * PAGE {
            return Err(MemFault::Outside);
        }
        let last = end.div_ceil(PAGE);
        let Ok(()) = table::make_each(self.alloc, &mut self.pages, place / PAGE, last) else {
            return Err(MemFault::NoMemory);
        };
        table::put_bytes(&mut self.pages, place, bytes);
        Ok(())
    }
}

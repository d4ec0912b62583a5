//! Bytes that wait to be sent.
ghost use Rattle.std.specs.Prelude.{◌≡◌, ◌≤◌, ◌+◌, ◌-◌, ◌*◌, ◌++◌, [], OnOk, OnErr, drop, take, length, max, vec_len, vec_capacity};

use std::alloc::{AllocError, Global};
use std::marker::Model;

/// Bytes that wait. What is put after them or taken of them costs time for itself alone, and what was
/// taken is not kept for ever. A contract sees the bytes that wait.
#[derive(Drop)]
pub struct Buffer {
    slots: Slots,
}

impl Model for Buffer {
    ghost use Rattle.std.specs.Prelude.{List, ℕ, drop};

    ghost Value = { List ℕ };

    ghost view = { λ b. drop b.slots.start b.slots.bytes.items };
}

impl Buffer {
    /// Nothing waits. It takes no memory.
    pub fn new(alloc: Global) -> Buffer
        ensures { result ≡ [] }
    {
        Buffer {
            slots: Slots {
                bytes: Vec::new(alloc),
                start: 0,
            },
        }
    }

    /// How many bytes wait.
    pub fn len(&self) -> usize
        ensures { result ≡ length self.now }
    {
        self.slots.bytes.len() - self.slots.start
    }

    /// The bytes that wait.
    pub fn as_slice(&self) -> &[u8]
        ensures { result.now ≡ self.now }
    {
        &self.slots.bytes[self.slots.start..]
    }

    /// Takes the last bytes back, as many as are there at least.
    pub fn take_back(&mut self, count: usize)
        requires { count ≤ length self.old }
        ensures { self.new ≡ take (length self.old - count) self.old }
    {
        let kept = self.slots.bytes.len() - count;
        self.slots.bytes.truncate(kept);
    }

    /// Puts bytes after those that wait. Where no memory is left, nothing changes; for no bytes it takes none.
    pub fn push(&mut self, more: &[u8]) -> Result<(), AllocError>
        ensures ok { OnOk result (self.new ≡ self.old ++ more.now) }
        ensures err { OnErr result (self.new ≡ self.old) }
        ensures some { OnErr result (more.now ≡ [] → ⊥) }
    {
        if more.is_empty() {
            return Ok(());
        }
        self.slots.push(more)
    }

    /// Takes the first of the bytes.
    pub fn take(&mut self, count: usize)
        requires { count ≤ length self.old }
        ensures { self.new ≡ drop count self.old }
    {
        self.slots.take(count);
    }

    /// Takes all of the bytes.
    pub fn clear(&mut self)
        ensures { self.new ≡ [] }
    {
        self.slots.clear();
    }
}

// Bytes; those before `start` were taken.
#[derive(Drop)]
struct Slots {
    bytes: Vec<u8>,
    start: usize,
    ghost in_range: { start ≤ vec_len bytes },
}

impl Slots {
    // There are no more bytes then than there was memory for, or than twice those that wait and the new ones.
    fn push(&mut self, more: &[u8]) -> Result<(), AllocError>
        ensures ok { OnOk result
            (drop self.new.start self.new.bytes.items
            ≡ drop self.old.start self.old.bytes.items ++ more.now) }
        ensures err { OnErr result
            (drop self.new.start self.new.bytes.items ≡ drop self.old.start self.old.bytes.items) }
        ensures bounded { OnOk result (vec_len self.new.bytes
            ≤ max (vec_capacity self.old.bytes)
            (2 * (vec_len self.old.bytes - self.old.start) + length more.now)) }
    {
        self.make_room(more.len());
        self.bytes.extend_from_slice(more)?;
        Ok(())
    }

    // Before the bytes would have to grow, those that wait move to the beginning, if they are no more than
    // those that were taken: so each byte moves at most once for each that was taken.
    fn make_room(&mut self, more: usize)
        ensures same { drop self.new.start self.new.bytes.items
            ≡ drop self.old.start self.old.bytes.items }
        ensures bounded { vec_len self.new.bytes + more
            ≤ max (vec_capacity self.old.bytes)
            (2 * (vec_len self.old.bytes - self.old.start) + more) }
    {
        let is_full = self.bytes.capacity() - self.bytes.len() < more;
        if is_full && self.start >= self.bytes.len() - self.start {
            self.bytes.drain(..self.start);
            self.start = 0;
        }
    }

    // Where all bytes were taken, none is kept.
    fn take(&mut self, count: usize)
        requires { self.old.start + count ≤ vec_len self.old.bytes }
        ensures waiting { drop self.new.start self.new.bytes.items
            ≡ drop (self.old.start + count) self.old.bytes.items }
        ensures emptied { self.old.start + count ≡ vec_len self.old.bytes
            → self.new.bytes.items ≡ [] }
    {
        self.start += count;
        if self.start == self.bytes.len() {
            self.clear();
        }
    }

    fn clear(&mut self)
        ensures bytes { self.new.bytes.items ≡ [] }
        ensures start { self.new.start ≡ 0 }
    {
        self.bytes.clear();
        self.start = 0;
    }
}

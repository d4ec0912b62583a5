//! Copies of the texts that a session was given.
ghost use Rattle.scripts.specs.Copies.{KnownCopies, Keeps};

/// Keeps copies of texts.
pub trait Copies {
    ghost kept: { Self → KnownCopies };

    /// Keeps a copy of a text, under the path of this number, `NUMBER.s`. It answers whether it did.
    fn keep(&mut self, number: u32, text: &[u8]) -> bool
        ensures { Keeps number text.now result (kept self.old) (kept self.new) };
}

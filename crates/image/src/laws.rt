//! Memory is a map from address to byte: each law is the contract of a function that does nothing.

ghost use Rattle.image.specs.Laws.{
  BytesLieFromFirst,
  EachHasByte,
  KeepsAbove,
  KeepsBelow,
  LieInOnePage,
  NewIsZero,
  ReadsBytes,
  TakesNoMemory,
  WritesBytes,
};

/// What is read from an address on is the bytes there.
pub fn reads_are_bytes()
    ensures { ReadsBytes }
{}

/// A write gives each of its addresses its byte, and leaves every other address as it was.
pub fn writes_are_changes()
    ensures bytes { WritesBytes }
    ensures below { KeepsBelow }
    ensures above { KeepsAbove }
{}

/// The addresses that have a byte are those from 0x00010000 up to the end of memory, and no others. An
/// access is found to lie in memory exactly where each of its addresses has a byte.
pub fn bytes_lie_from_first()
    ensures one { BytesLieFromFirst }
    ensures each { EachHasByte }
{}

/// Each byte of new memory is 0.
pub fn new_is_zero()
    ensures { NewIsZero }
{}

/// What an access answers by its address is never that no memory is left: that comes from the growth
/// of a page alone.
pub fn takes_no_memory()
    ensures { TakesNoMemory }
{}

/// Bytes that lie at a multiple of how many they are, as halfwords and words do, lie in one page.
pub fn aligned_lie_in_one_page()
    ensures halves { LieInOnePage 2 }
    ensures words { LieInOnePage 4 }
{}

//! What holds of every image and of every text: each law is the contract of a function that does
//! nothing.

ghost use Rattle.assembler.specs.Assembled.{AssembledIsNarrow, AssembledIsPlaced, PlacedIsAssembled, PlacedIsLoadable};
ghost use Rattle.assembler.specs.Placed.{PlacedIsUnique};
ghost use Rattle.assembler.specs.Texts.{TextsAreWords};

/// A text has at most one image for a size of memory.
pub fn placed_is_unique()
    ensures { PlacedIsUnique }
{}

/// An image that is right for a text is the one that `Assembled.assembled` computes of the text.
pub fn placed_is_assembled()
    ensures { PlacedIsAssembled }
{}

/// The image that is computed of a text with which nothing is wrong is right for it. So of each text
/// either an image is right or something is wrong with it, and never both.
pub fn assembled_is_placed()
    ensures { AssembledIsPlaced }
{}

/// An image that is right for a text and a size of memory is no longer than that, and its entry is a multiple
/// of 4: so it can be loaded.
pub fn placed_is_loadable()
    ensures { PlacedIsLoadable }
{}

/// The lines and addresses in the line table of a text with which nothing is wrong are numbers of 32 bits.
pub fn assembled_is_narrow()
    ensures { AssembledIsNarrow }
{}

/// The disassembly of an instruction at an address reads back as its word: as a line with no label and with a
/// statement that has four bytes at that address, those of the one word that encodes the instruction.
pub fn texts_are_words()
    ensures { TextsAreWords }
{}

//! What holds of every word and of every move: each law is the contract of a function that does
//! nothing.

ghost use Rattle.rv32i.specs.Laws.{DecodingIsUnique, EachMachineMoves, EachWordIsDecoded, EncodingIsUnique, ExitCodesAreWords, InstructionIsUnique, MoveIsDeterministic, MovesAnswer, NameIsUnique, TextIsUnique, WordIsComputed};

/// A word encodes at most one instruction.
pub fn instruction_is_unique()
    ensures { InstructionIsUnique }
{}

/// An instruction has at most one word. So what `encode` makes of what `decode` made of a word is that
/// word.
pub fn encoding_is_unique()
    ensures { EncodingIsUnique }
{}

/// The word of an instruction, if it has one, is the one that `Words.word_of` computes of it.
pub fn word_is_computed()
    ensures { WordIsComputed }
{}

/// A machine has at most one move: pc, the registers and memory settle what a step answers and what it
/// leaves.
pub fn move_is_deterministic()
    ensures { MoveIsDeterministic }
{}

/// Each word has a decoding: an instruction, or none.
pub fn each_word_is_decoded()
    ensures { EachWordIsDecoded }
{}

/// A word is decoded to what a decoding of it says, and to nothing else. So it does not matter how that is found.
pub fn decoding_is_unique()
    ensures { DecodingIsUnique }
{}

/// Each machine has a move, and the move keeps x0 at 0.
pub fn each_machine_moves()
    ensures { EachMachineMoves }
{}

/// A move is answered: it never says that no memory is left.
pub fn moves_answer()
    ensures { MovesAnswer }
{}

/// The code of an exit has 32 bits, one of them for its sign.
pub fn exit_codes_are_words()
    ensures { ExitCodesAreWords }
{}

/// A word at an address has at most one disassembly.
pub fn text_is_unique()
    ensures { TextIsUnique }
{}

/// A name means at most one register.
pub fn name_is_unique()
    ensures { NameIsUnique }
{}

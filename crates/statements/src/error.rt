//! What is wrong with a line.

/// What is wrong with a line that has something wrong, before any address is known.
#[derive(Clone, Copy, Debug, PartialEq, Eq)]
pub enum LineError {
    /// It is no labels followed by a name and operands.
    Syntax,
    /// Its name is no mnemonic of an instruction and no directive's.
    UnknownInstruction,
    /// Its mnemonic or directive takes operands of another number or form.
    BadOperand,
    /// A number in it is outside its range.
    OutOfRange,
    /// No memory was left.
    NoMemory,
}

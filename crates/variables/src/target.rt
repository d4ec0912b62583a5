//! What a reference refers to.

/// What a reference refers to: a frame, or a scope of the variables that each frame shows.
#[derive(Clone, Copy, Debug, PartialEq, Eq)]
pub enum Target {
    /// The frame of this index, counted from the newest, which is 0.
    Frame(u32),
    /// The scope of the registers.
    Registers,
    /// The scope of the words of the stack.
    Stack,
}

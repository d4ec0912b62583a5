//! The tokens of an expression.

use rv32i::Reg;

/// A token: what the text of an expression is made of.
#[derive(Clone, Copy, Debug, PartialEq, Eq)]
pub enum Token {
    /// A number.
    Number(u32),
    /// The name of a register.
    Register(Reg),
    /// `pc`.
    Pc,
    /// An operator between two operands; `-` is one of these wherever it stands.
    Infix(Infix),
    /// `~`.
    Tilde,
    /// `!`.
    Bang,
    /// `(` or `[`.
    Open(Bracket),
    /// `)` or `]`.
    Close(Bracket),
}

/// An operator between two operands.
#[derive(Clone, Copy, Debug, PartialEq, Eq)]
pub enum Infix {
    /// `||`: 1 where one side is not 0, else 0; the right side counts only where the left is 0.
    OrElse,
    /// `&&`: 1 where neither side is 0, else 0; the right side counts only where the left is not 0.
    AndThen,
    /// `|`.
    Or,
    /// `^`.
    Xor,
    /// `&`.
    And,
    /// `==`.
    Equal,
    /// `!=`.
    NotEqual,
    /// `<`, signed.
    Less,
    /// `<=`, signed.
    LessEqual,
    /// `>`, signed.
    Greater,
    /// `>=`, signed.
    GreaterEqual,
    /// `<<`, by the low 5 bits of the right side.
    ShiftLeft,
    /// `>>`, by the low 5 bits of the right side; zeros come in.
    ShiftRight,
    /// `+`.
    Plus,
    /// `-`.
    Minus,
    /// `*`.
    Times,
}

/// An operator before its operand.
#[derive(Clone, Copy, Debug, PartialEq, Eq)]
pub enum Prefix {
    /// `-`.
    Negate,
    /// `~`: each bit the other way.
    Complement,
    /// `!`: 1 for 0, and 0 for all else.
    Not,
}

/// What encloses an expression.
#[derive(Clone, Copy, Debug, PartialEq, Eq)]
pub enum Bracket {
    /// `(` and `)`: the value itself.
    Round,
    /// `[` and `]`: the word in memory at that address.
    Square,
}

//! What the signs of a sum of constants do, as GNU as has it ("Using as", section 6.2).

/// An operator, or a bracket that waits for its end.
#[derive(Clone, Copy, PartialEq, Eq)]
pub(crate) enum Operation {
    /// `(`.
    Open,
    /// `+`.
    Add,
    /// `-`.
    Subtract,
    /// `|`.
    Or,
    /// `&`.
    And,
    /// `^`.
    ExclusiveOr,
    /// `*`.
    Multiply,
    /// `/`.
    Divide,
    /// `%`.
    Remainder,
    /// `<<`.
    ShiftLeft,
    /// `>>`.
    ShiftRight,
    /// `-` before its operand.
    Negate,
    /// `~`.
    Invert,
}

impl Operation {
    /// How tightly it binds: the greater the tighter, and 0 for a bracket.
    pub(crate) fn level(self) -> u8 {
        match self {
            Operation::Open => 0,
            Operation::Add | Operation::Subtract => 1,
            Operation::Or | Operation::And | Operation::ExclusiveOr => 2,
            Operation::Multiply | Operation::Divide | Operation::Remainder => 3,
            Operation::ShiftLeft | Operation::ShiftRight => 3,
            Operation::Negate | Operation::Invert => 4,
        }
    }

    /// What it makes of one operand. `None`: it has two, or the number is too large.
    pub(crate) fn of_one(self, value: i64) -> Option<i64> {
        match self {
            Operation::Negate => value.checked_neg(),
            Operation::Invert => Some(!value),
            _ => None,
        }
    }

    /// What it makes of two operands. `None`: it has one, the number is too large, or the divisor is 0.
    pub(crate) fn of_two(self, left: i64, right: i64) -> Option<i64> {
        match self {
            Operation::Add => left.checked_add(right),
            Operation::Subtract => left.checked_sub(right),
            Operation::Or => Some(left | right),
            Operation::And => Some(left & right),
            Operation::ExclusiveOr => Some(left ^ right),
            Operation::Multiply => left.checked_mul(right),
            Operation::Divide => left.checked_div(right),
            Operation::Remainder => left.checked_rem(right),
            Operation::ShiftLeft => left.checked_shl(places(right)?),
            Operation::ShiftRight => left.checked_shr(places(right)?),
            Operation::Open | Operation::Negate | Operation::Invert => None,
        }
    }
}

// By how many places a shift goes.
fn places(value: i64) -> Option<u32> {
    match u32::try_from(value) {
        Ok(count) => Some(count),
        Err(_) => None,
    }
}

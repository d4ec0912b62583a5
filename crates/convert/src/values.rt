//! The value of a sum of constants.
ghost use Rattle.std.specs.Prelude.{◌≡◌};

use crate::names::Names;
use crate::operations::Operation;
use crate::tokens::{Token, token_of};
use std::alloc::{AllocError, Global};

// Why a text has no value.
enum Unvalued {
    // It is no sum of constants, or a part of it is too large.
    NoValue,
    // No memory was left.
    NoMemory,
}

impl From<AllocError> for Unvalued {
    ghost use Rattle.convert.specs.declared.values.Unvalued.TheVariants.{NoMemory};

    ghost from_gives = { λ _ fault. fault ≡ NoMemory };

    fn from(_: AllocError) -> Unvalued {
        Unvalued::NoMemory
    }
}

// Whether an operand is to come, or an operator.
#[derive(Clone, Copy, PartialEq, Eq)]
enum Next {
    Operand,
    Operator,
}

// What was read of a sum.
#[derive(Drop)]
struct Sum {
    values: Vec<i64>,
    waiting: Vec<Operation>,
    next: Next,
}

/// The value of a sum of numbers, characters and names. `None`: it is none, or a name in it has no value.
pub(crate) fn value_of(
    alloc: Global,
    text: &[u8],
    names: &Names,
) -> Result<Option<i64>, AllocError> {
    let mut sum = Sum {
        values: Vec::new(alloc),
        waiting: Vec::new(alloc),
        next: Next::Operand,
    };
    match sum.read(text, names) {
        Ok(value) => Ok(Some(value)),
        Err(Unvalued::NoValue) => Ok(None),
        Err(Unvalued::NoMemory) => Err(AllocError),
    }
}

impl Sum {
    fn read(&mut self, text: &[u8], names: &Names) -> Result<i64, Unvalued> {
        let mut rest = text;
        'tokens: while !rest.is_empty() {
            let Some((token, after)) = token_of(rest) else {
                return Err(Unvalued::NoValue);
            };
            self.take(token, names)?;
            rest = after;
        }
        self.end()
    }

    fn take(&mut self, token: Token<'_>, names: &Names) -> Result<(), Unvalued> {
        match token {
            Token::Blank => Ok(()),
            Token::Number(value) => self.operand(value),
            Token::Name(name) => match names.value(name) {
                Some(value) => self.operand(value),
                None => Err(Unvalued::NoValue),
            },
            Token::Sign(sign) => match self.next {
                Next::Operand => self.before_operand(sign),
                Next::Operator => self.between_operands(sign),
            },
            Token::Close => self.close(),
        }
    }

    fn operand(&mut self, value: i64) -> Result<(), Unvalued> {
        if self.next == Next::Operator {
            return Err(Unvalued::NoValue);
        }
        self.next = Next::Operator;
        push_value(&mut self.values, value)
    }

    fn before_operand(&mut self, sign: Operation) -> Result<(), Unvalued> {
        match sign {
            Operation::Open | Operation::Invert => push_sign(&mut self.waiting, sign),
            Operation::Subtract => push_sign(&mut self.waiting, Operation::Negate),
            Operation::Add => Ok(()),
            _ => Err(Unvalued::NoValue),
        }
    }

    fn between_operands(&mut self, sign: Operation) -> Result<(), Unvalued> {
        if sign == Operation::Open || sign == Operation::Invert {
            return Err(Unvalued::NoValue);
        }
        reduce(&mut self.values, &mut self.waiting, sign.level())?;
        self.next = Next::Operand;
        push_sign(&mut self.waiting, sign)
    }

    fn close(&mut self) -> Result<(), Unvalued> {
        if self.next == Next::Operand {
            return Err(Unvalued::NoValue);
        }
        reduce(&mut self.values, &mut self.waiting, 1)?;
        match self.waiting.pop() {
            Some(_) => Ok(()),
            None => Err(Unvalued::NoValue),
        }
    }

    fn end(&mut self) -> Result<i64, Unvalued> {
        reduce(&mut self.values, &mut self.waiting, 1)?;
        match (self.values.as_slice(), self.waiting.as_slice()) {
            ([value], []) => Ok(*value),
            _ => Err(Unvalued::NoValue),
        }
    }
}

// Does what waits and binds at least this tightly, the newest first.
fn reduce(values: &mut Vec<i64>, waiting: &mut Vec<Operation>, level: u8) -> Result<(), Unvalued> {
    'waiting: while let Some(operation) = waiting.pop() {
        if operation.level() < level {
            return push_sign(waiting, operation);
        }
        apply(values, operation)?;
    }
    Ok(())
}

fn apply(values: &mut Vec<i64>, operation: Operation) -> Result<(), Unvalued> {
    match result_of(values, operation) {
        Some(value) => push_value(values, value),
        None => Err(Unvalued::NoValue),
    }
}

// What an operation makes of the newest values, which are taken away.
fn result_of(values: &mut Vec<i64>, operation: Operation) -> Option<i64> {
    let right = values.pop()?;
    match operation {
        Operation::Negate | Operation::Invert => operation.of_one(right),
        _ => operation.of_two(values.pop()?, right),
    }
}

fn push_value(values: &mut Vec<i64>, value: i64) -> Result<(), Unvalued> {
    match values.push(value) {
        Ok(()) => Ok(()),
        Err(_) => Err(Unvalued::NoMemory),
    }
}

fn push_sign(waiting: &mut Vec<Operation>, sign: Operation) -> Result<(), Unvalued> {
    match waiting.push(sign) {
        Ok(()) => Ok(()),
        Err(_) => Err(Unvalued::NoMemory),
    }
}

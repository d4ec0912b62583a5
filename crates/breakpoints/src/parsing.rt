//! The tree of tokens.

ghost use Rattle.std.specs.Prelude.{◌≡◌, IfOk, Some};
ghost use Rattle.std.specs.Option.{option_map};
ghost use Rattle.breakpoints.specs.Nodes.{tree_of};
ghost use Rattle.breakpoints.specs.Shifting.{Before, Full, Open, closed, closed_at, ended, ended_at, finished, follows, grouped, grouped_of, joined, minus, opens, parsed, place_of, shifted, stack_of};
ghost use Rattle.breakpoints.specs.Trees.{Enclosed, level_of};

use crate::node::Node;
use crate::token::{Bracket, Infix, Prefix, Token};
use std::alloc::{AllocError, Global};

/// What waits for the operand that is being read, the nearest first.
#[derive(Drop)]
enum Waiting {
    /// Nothing: it is the whole expression.
    Nothing,
    /// An operator before it.
    Before(Prefix, Box<Waiting>),
    /// A pair of brackets round it.
    Inside(Bracket, Box<Waiting>),
    /// A left operand and the operator between the two.
    LeftOf(Node, Infix, Box<Waiting>),
}

/// Where a reader of tokens is.
#[derive(Drop)]
enum State {
    /// An operand is wanted.
    Wants(Waiting),
    /// There is an operand.
    Has(Waiting, Node),
}

/// The tree of tokens. `None`: the grammar gives them none.
pub(crate) fn parse(alloc: Global, tokens: &[Token]) -> Result<Option<Node>, AllocError>
    ensures { IfOk result (λ found. option_map tree_of found ≡ parsed tokens.now) }
{
    let mut state = State::Wants(Waiting::Nothing);
    for token in tokens {
        match shifted(alloc, state, *token)? {
            Some(next) => state = next,
            None => return Ok(None),
        }
    }
    finished(alloc, state)
}

// Where the reader is after a token; `None`: no tree has it there.
fn shifted(alloc: Global, state: State, token: Token) -> Result<Option<State>, AllocError>
    ensures { IfOk result (λ found. option_map place_of found ≡ shifted (place_of state) token) }
{
    match state {
        State::Wants(waiting) => opens(alloc, waiting, token),
        State::Has(waiting, operand) => follows(alloc, waiting, operand, token),
    }
}

// A token where an operand is wanted.
fn opens(alloc: Global, waiting: Waiting, token: Token) -> Result<Option<State>, AllocError>
    ensures { IfOk result (λ found. option_map place_of found ≡ opens (stack_of waiting) token) }
{
    match token {
        Token::Number(number) => Ok(Some(State::Has(waiting, Node::Number(number)))),
        Token::Register(register) => Ok(Some(State::Has(waiting, Node::Register(register)))),
        Token::Pc => Ok(Some(State::Has(waiting, Node::Pc))),
        Token::Infix(operator) => minus(alloc, waiting, operator),
        Token::Tilde => before(alloc, waiting, Prefix::Complement),
        Token::Bang => before(alloc, waiting, Prefix::Not),
        Token::Open(bracket) => Ok(Some(State::Wants(Waiting::Inside(
            bracket,
            Box::new(alloc, waiting)?,
        )))),
        Token::Close(_) => Ok(None),
    }
}

// An operator where an operand is wanted: `-` alone may stand there.
fn minus(alloc: Global, waiting: Waiting, operator: Infix) -> Result<Option<State>, AllocError>
    ensures { IfOk result (λ found. option_map place_of found ≡ minus (stack_of waiting) operator) }
{
    match operator {
        Infix::Minus => before(alloc, waiting, Prefix::Negate),
        _ => Ok(None),
    }
}

// An operator before the operand that is wanted.
fn before(alloc: Global, waiting: Waiting, operator: Prefix) -> Result<Option<State>, AllocError>
    ensures { IfOk result (λ found. option_map place_of found
        ≡ Some (Open (Before operator (stack_of waiting)))) }
{
    Ok(Some(State::Wants(Waiting::Before(operator, Box::new(alloc, waiting)?))))
}

// A token where there is an operand.
fn follows(
    alloc: Global,
    waiting: Waiting,
    operand: Node,
    token: Token,
) -> Result<Option<State>, AllocError>
    ensures { IfOk result (λ found. option_map place_of found
        ≡ follows (stack_of waiting) (tree_of operand) token) }
{
    match token {
        Token::Infix(operator) => joined(alloc, waiting, operand, operator),
        Token::Close(bracket) => closed_at(alloc, waiting, operand, bracket),
        _ => Ok(None),
    }
}

// An operator between two operands, after the left one.
fn joined(
    alloc: Global,
    waiting: Waiting,
    operand: Node,
    operator: Infix,
) -> Result<Option<State>, AllocError>
    ensures { IfOk result (λ found. option_map place_of found
        ≡ Some (joined operator (grouped (level_of operator) (stack_of waiting)
        (tree_of operand)))) }
{
    let (waiting, operand) = grouped(alloc, level_of(operator), waiting, operand)?;
    Ok(Some(State::Wants(Waiting::LeftOf(operand, operator, Box::new(alloc, waiting)?))))
}

// A closing bracket, after an operand.
fn closed_at(
    alloc: Global,
    waiting: Waiting,
    operand: Node,
    bracket: Bracket,
) -> Result<Option<State>, AllocError>
    ensures { IfOk result (λ found. option_map place_of found
        ≡ closed_at bracket (grouped 0 (stack_of waiting) (tree_of operand))) }
{
    let (waiting, operand) = grouped(alloc, 0, waiting, operand)?;
    closed(alloc, waiting, operand, bracket)
}

// The bracket that opened has to be of the same kind.
fn closed(
    alloc: Global,
    waiting: Waiting,
    operand: Node,
    bracket: Bracket,
) -> Result<Option<State>, AllocError>
    ensures { IfOk result (λ found. option_map place_of found
        ≡ closed bracket (tree_of operand) (stack_of waiting)) }
{
    match waiting {
        Waiting::Inside(opened, rest) => match (bracket, opened) {
            (Bracket::Round, Bracket::Round) => enclosed(alloc, rest, operand, bracket),
            (Bracket::Square, Bracket::Square) => enclosed(alloc, rest, operand, bracket),
            _ => Ok(None),
        },
        _ => Ok(None),
    }
}

fn enclosed(
    alloc: Global,
    waiting: Box<Waiting>,
    operand: Node,
    bracket: Bracket,
) -> Result<Option<State>, AllocError>
    ensures { IfOk result (λ found. option_map place_of found
        ≡ Some (Full (stack_of waiting.value) (Enclosed bracket (tree_of operand)))) }
{
    let operand = Node::Enclosed(bracket, Box::new(alloc, operand)?);
    Ok(Some(State::Has(Box::into_inner(waiting), operand)))
}

// An operand with what waits for it and binds at least as tight as this level.
fn grouped(
    alloc: Global,
    level: u32,
    waiting: Waiting,
    operand: Node,
) -> Result<(Waiting, Node), AllocError>
    ensures { IfOk result (λ found. grouped_of found.0 found.1
        ≡ grouped level (stack_of waiting) (tree_of operand)) }
{
    match waiting {
        Waiting::Before(operator, rest) => {
            let operand = Node::Unary(operator, Box::new(alloc, operand)?);
            grouped(alloc, level, Box::into_inner(rest), operand)
        }
        Waiting::LeftOf(left, operator, rest) => {
            if level_of(operator) < level {
                return Ok((Waiting::LeftOf(left, operator, rest), operand));
            }
            let operand = Node::Binary(operator, Box::new(alloc, left)?, Box::new(alloc, operand)?);
            grouped(alloc, level, Box::into_inner(rest), operand)
        }
        waiting => Ok((waiting, operand)),
    }
}

// The end of the tokens.
fn finished(alloc: Global, state: State) -> Result<Option<Node>, AllocError>
    ensures { IfOk result (λ found. option_map tree_of found ≡ finished (place_of state)) }
{
    match state {
        State::Wants(_) => Ok(None),
        State::Has(waiting, operand) => ended_at(alloc, waiting, operand),
    }
}

fn ended_at(alloc: Global, waiting: Waiting, operand: Node) -> Result<Option<Node>, AllocError>
    ensures { IfOk result (λ found. option_map tree_of found
        ≡ ended_at (grouped 0 (stack_of waiting) (tree_of operand))) }
{
    let (waiting, operand) = grouped(alloc, 0, waiting, operand)?;
    Ok(ended(waiting, operand))
}

// Nothing may wait any more.
fn ended(waiting: Waiting, operand: Node) -> Option<Node>
    ensures { option_map tree_of result ≡ ended (tree_of operand) (stack_of waiting) }
{
    match waiting {
        Waiting::Nothing => Some(operand),
        _ => None,
    }
}

// The level of an operator: one of a higher level binds tighter.
fn level_of(operator: Infix) -> u32
    ensures { result ≡ level_of operator }
{
    match operator {
        Infix::OrElse => 1,
        Infix::AndThen => 2,
        Infix::Or => 3,
        Infix::Xor => 4,
        Infix::And => 5,
        Infix::Equal | Infix::NotEqual => 6,
        Infix::Less | Infix::LessEqual | Infix::Greater | Infix::GreaterEqual => 7,
        Infix::ShiftLeft | Infix::ShiftRight => 8,
        Infix::Plus | Infix::Minus => 9,
        Infix::Times => 10,
    }
}

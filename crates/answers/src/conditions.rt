//! The texts of a breakpoint: its condition, and which of its hits stops.

ghost use Rattle.std.specs.Prelude.{◌≡◌, ◌≤◌, length, option_copied, IfOk, OnErr};
ghost use Rattle.answers.specs.Expressions.{expression_of};
ghost use Rattle.answers.specs.Spaces.{said};
ghost use Rattle.answers.specs.Conditions as spec;
ghost use Rattle.answers.specs.Private.Steps.{condition_by, conditions_by};

use crate::problem::Problem;
use crate::spaces::said;
use breakpoints::{Expr, ExprError};
use numerals::numeral;
use protocol::Text;
use std::alloc::{AllocError, Global};

/// Under which condition a breakpoint is hit, and from which hit on it stops.
#[derive(Drop)]
pub(crate) struct Conditions {
    /// The condition; `None`: it is hit each time.
    pub(crate) condition: Option<Expr>,
    /// The number of the first hit at which it stops, from 1.
    pub(crate) hit: u32,
}

/// What the two texts say. `BadCondition`: the first is no expression; else `BadHitCondition`: the second is no number from 1 to
/// 4,294,967,295 in decimal digits. Spaces round them are left out, and an empty one is as an absent one. `Err`: no memory was
/// left; a condition that is absent or has more than 1,024 bytes takes none.
pub(crate) fn conditions_of(
    alloc: Global,
    condition: &Option<Text>,
    hits: &Option<Text>,
) -> Result<Result<Conditions, Problem>, AllocError>
    ensures found { IfOk result
        (λ found. conditions_by found ≡ spec.conditions_of condition.now hits.now) }
    ensures short { OnErr result (spec.MayTakeMemory (said condition.now)) }
{
    match condition_of(alloc, said(condition))? {
        Err(problem) => Ok(Err(problem)),
        Ok(condition) => Ok(with_hits(condition, hit_of(said(hits)))),
    }
}

fn with_hits(condition: Option<Expr>, hit: Result<u32, Problem>) -> Result<Conditions, Problem>
    ensures { conditions_by result ≡ spec.both (condition_by (Ok condition)) hit }
{
    match hit {
        Err(problem) => Err(problem),
        Ok(hit) => Ok(Conditions { condition, hit }),
    }
}

// The condition that a text says.
fn condition_of(
    alloc: Global,
    text: Option<&str>,
) -> Result<Result<Option<Expr>, Problem>, AllocError>
    ensures found { IfOk result
        (λ found. condition_by found ≡ spec.condition_of (option_copied text.entry)) }
    ensures short { OnErr result (spec.MayTakeMemory (option_copied text.entry)) }
{
    match text {
        None => Ok(Ok(None)),
        Some(text) => expression_of(alloc, text),
    }
}

fn expression_of(alloc: Global, text: &str) -> Result<Result<Option<Expr>, Problem>, AllocError>
    ensures found { IfOk result
        (λ found. condition_by found ≡ spec.if_expression (expression_of text.now)) }
    ensures short { OnErr result (length text.now ≤ 1024) }
{
    match Expr::parse(alloc, text) {
        Ok(expression) => Ok(Ok(Some(expression))),
        Err(ExprError::NoMemory) => Err(AllocError),
        Err(ExprError::Syntax) => Ok(Err(Problem::BadCondition)),
        Err(ExprError::TooDeep) => Ok(Err(Problem::BadCondition)),
        Err(ExprError::TooLong) => Ok(Err(Problem::BadCondition)),
    }
}

// The number of the first hit that stops, as a text says.
fn hit_of(text: Option<&str>) -> Result<u32, Problem>
    ensures { result ≡ spec.hit_of (option_copied text.entry) }
{
    match text {
        None => Ok(1),
        Some(text) => match numeral(10, text.as_bytes()) {
            Ok(0) => Err(Problem::BadHitCondition),
            Ok(number) => Ok(number),
            Err(_) => Err(Problem::BadHitCondition),
        },
    }
}

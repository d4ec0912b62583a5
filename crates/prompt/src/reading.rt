//! A line, read.
ghost use Rattle.std.specs.Prelude.{◌≡◌};
ghost use Rattle.prompt.specs.Lines as spec;

use crate::counting::{count_in, counted};
use crate::error::{Argument, LineError, LineFault};
use crate::line::{Line, Stop};
use crate::part::Part;
use crate::place::{Place, place_in};
use crate::separator::Separator;
use crate::text::{Text, missing, number_in, text_in, utf8_in, wrong};
use crate::words::{Direction, Motion, Plain, Unit, Word, word_of};

/// What a line asks for, or the first thing that is wrong with it. The line has no line feed.
///
/// - `UnknownWord`: its word is none that is known.
/// - `Missing`: an argument that belongs to its word, or a part of one, is not there.
/// - `NotANumber`: something stands where a number belongs.
/// - `Unexpected`: something follows, and nothing may.
/// - `NotUtf8`: a text in it is not UTF-8.
#[tactic(auto, unfolding(crate::specs::Lines::line_of))]
pub fn read_line(line: &[u8]) -> Result<Line<'_>, LineError>
    ensures { result ≡ spec.line_of line.now }
{
    let part = Part::whole(line).bare();
    match part.text() {
        [] => Ok(Line::Again),
        [b'#', ..] => Ok(Line::Comment),
        _ => said(&part),
    }
}

fn said<'a>(part: &Part<'a>) -> Result<Line<'a>, LineError>
    ensures { result ≡ spec.said part.now }
{
    let (name, rest) = part.first_word();
    match word_in(&name) {
        Some(word) => meaning(word, &rest),
        None => Err(wrong(LineFault::UnknownWord, &name)),
    }
}

fn word_in(name: &Part<'_>) -> Option<Word>
    ensures { result ≡ spec.word_in name.now }
{
    match utf8_in(name.text()) {
        Some(name) => word_of(name),
        None => None,
    }
}

// What a word asks for with what follows it.
fn meaning<'a>(word: Word, rest: &Part<'a>) -> Result<Line<'a>, LineError>
    ensures { result ≡ spec.meaning word rest.now }
{
    match word {
        Word::Plain(plain) => alone(plain, rest),
        Word::Motion(motion) => moving(motion, rest),
        Word::Help => helping(rest),
        Word::Break => breaking(false, rest),
        Word::Tbreak => breaking(true, rest),
        Word::Log => logging(rest),
        Word::Delete => deleting(rest),
        Word::Change(direction) => changing(direction, rest),
        Word::Print => printing(rest),
        Word::Display => displaying(rest),
        Word::Undisplay => undisplaying(rest),
        Word::Set => setting(rest),
        Word::Registers => naming(rest),
        Word::Examine(unit) => examining(unit, rest),
        Word::Disassemble => disassembling(rest),
        Word::List => listing(rest),
    }
}

// Of a word to which nothing belongs.
fn alone<'a>(plain: Plain, rest: &Part<'a>) -> Result<Line<'a>, LineError>
    ensures { result ≡ spec.alone plain rest.now }
{
    if !rest.is_empty() {
        return Err(wrong(LineFault::Unexpected, rest));
    }
    Ok(Line::Plain(plain))
}

// Once, where no number is given.
fn moving<'a>(motion: Motion, rest: &Part<'a>) -> Result<Line<'a>, LineError>
    ensures { result ≡ spec.moving motion rest.now }
{
    match number_if(rest)? {
        Some(times) => Ok(Line::Move(motion, times)),
        None => Ok(Line::Move(motion, 1)),
    }
}

fn helping<'a>(rest: &Part<'a>) -> Result<Line<'a>, LineError>
    ensures { result ≡ spec.helping rest.now }
{
    Ok(Line::Help(text_if(Argument::Text, rest)?))
}

fn naming<'a>(rest: &Part<'a>) -> Result<Line<'a>, LineError>
    ensures { result ≡ spec.naming rest.now }
{
    Ok(Line::Registers(text_if(Argument::Text, rest)?))
}

fn deleting<'a>(rest: &Part<'a>) -> Result<Line<'a>, LineError>
    ensures { result ≡ spec.deleting rest.now }
{
    Ok(Line::Delete(number_if(rest)?))
}

fn undisplaying<'a>(rest: &Part<'a>) -> Result<Line<'a>, LineError>
    ensures { result ≡ spec.undisplaying rest.now }
{
    Ok(Line::Undisplay(number_if(rest)?))
}

fn displaying<'a>(rest: &Part<'a>) -> Result<Line<'a>, LineError>
    ensures { result ≡ spec.displaying rest.now }
{
    Ok(Line::Display(text_in(Argument::Expression, rest)?))
}

fn changing<'a>(direction: Direction, rest: &Part<'a>) -> Result<Line<'a>, LineError>
    ensures { result ≡ spec.changing direction rest.now }
{
    Ok(Line::Change(direction, text_in(Argument::Expression, rest)?))
}

fn listing<'a>(rest: &Part<'a>) -> Result<Line<'a>, LineError>
    ensures { result ≡ spec.listing rest.now }
{
    Ok(Line::List(place_if(rest)?))
}

fn breaking<'a>(is_temporary: bool, rest: &Part<'a>) -> Result<Line<'a>, LineError>
    ensures { result ≡ spec.breaking is_temporary rest.now }
{
    let (stop, hits) = rest.copied().parted(Separator::Hit);
    let (place, condition) = stop.parted(Separator::If);
    Ok(Line::Break(Stop {
        place: place_in(&place)?,
        condition: condition_in(condition)?,
        hits: count_in(hits)?,
        is_temporary,
    }))
}

fn condition_in<'a>(part: Option<Part<'a>>) -> Result<Option<Text<'a>>, LineError>
    ensures { result ≡ spec.condition_in part.entry }
{
    match part {
        Some(part) => Ok(Some(text_in(Argument::Expression, &part)?)),
        None => Ok(None),
    }
}

fn logging<'a>(rest: &Part<'a>) -> Result<Line<'a>, LineError>
    ensures { result ≡ spec.logging rest.now }
{
    let (place, text) = rest.first_word();
    Ok(Line::Log(place_in(&place)?, text_in(Argument::Text, &text)?))
}

fn printing<'a>(rest: &Part<'a>) -> Result<Line<'a>, LineError>
    ensures { result ≡ spec.printing rest.now }
{
    match rest.copied().parted(Separator::Assignment) {
        (target, Some(value)) => assigning(&target, &value),
        (text, None) => Ok(Line::Print(text_in(Argument::Expression, &text)?)),
    }
}

fn setting<'a>(rest: &Part<'a>) -> Result<Line<'a>, LineError>
    ensures { result ≡ spec.setting rest.now }
{
    match rest.copied().parted(Separator::Assignment) {
        (target, Some(value)) => assigning(&target, &value),
        (text, None) => Err(missing(Argument::Value, &text)),
    }
}

fn assigning<'a>(target: &Part<'a>, value: &Part<'a>) -> Result<Line<'a>, LineError>
    ensures { result ≡ spec.assigning target.now value.now }
{
    Ok(Line::Set(
        text_in(Argument::Expression, target)?,
        text_in(Argument::Value, value)?,
    ))
}

fn examining<'a>(unit: Unit, rest: &Part<'a>) -> Result<Line<'a>, LineError>
    ensures { result ≡ spec.examining unit rest.now }
{
    let (text, count) = counted(rest);
    Ok(Line::Examine(
        unit,
        text_in(Argument::Expression, &text)?,
        count_in(count)?,
    ))
}

fn disassembling<'a>(rest: &Part<'a>) -> Result<Line<'a>, LineError>
    ensures { result ≡ spec.disassembling rest.now }
{
    let (place, count) = counted(rest);
    Ok(Line::Disassemble(place_if(&place)?, count_in(count)?))
}

// The number that a part is, if it has a byte.
fn number_if(part: &Part<'_>) -> Result<Option<u32>, LineError>
    ensures { result ≡ spec.number_if part.now }
{
    if part.is_empty() {
        return Ok(None);
    }
    Ok(Some(number_in(part)?))
}

fn text_if<'a>(argument: Argument, part: &Part<'a>) -> Result<Option<Text<'a>>, LineError>
    ensures { result ≡ spec.text_if argument part.now }
{
    if part.is_empty() {
        return Ok(None);
    }
    Ok(Some(text_in(argument, part)?))
}

fn place_if<'a>(part: &Part<'a>) -> Result<Option<Place<'a>>, LineError>
    ensures { result ≡ spec.place_if part.now }
{
    if part.is_empty() {
        return Ok(None);
    }
    Ok(Some(place_in(part)?))
}

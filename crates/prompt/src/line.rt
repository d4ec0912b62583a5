//! What a line asks for.

use crate::place::Place;
use crate::text::Text;
use crate::words::{Direction, Motion, Plain, Unit};

/// A breakpoint that is asked for.
#[derive(Drop)]
pub struct Stop<'a> {
    /// Where it is.
    pub place: Place<'a>,
    /// The expression that has to be other than 0.
    pub condition: Option<Text<'a>>,
    /// At which hit it stops.
    pub hits: Option<u32>,
    /// Whether it goes once it is met.
    pub is_temporary: bool,
}

/// What a line asks for.
#[derive(Drop)]
pub enum Line<'a> {
    /// The last motion once more: nothing was typed.
    Again,
    /// Nothing: a `#` begins it.
    Comment,
    /// What its word says.
    Plain(Plain),
    /// To move, this many times.
    Move(Motion, u32),
    /// Help, or that for a word.
    Help(Option<Text<'a>>),
    /// A breakpoint.
    Break(Stop<'a>),
    /// A text that is said whenever the program comes to a place.
    Log(Place<'a>, Text<'a>),
    /// That the breakpoint of this number goes, or all.
    Delete(Option<u32>),
    /// To move until an expression has another value.
    Change(Direction, Text<'a>),
    /// The value of an expression.
    Print(Text<'a>),
    /// The value of an expression at each stop.
    Display(Text<'a>),
    /// That the display of this number goes, or all.
    Undisplay(Option<u32>),
    /// That a register, or a word of memory, gets the value of an expression.
    Set(Text<'a>, Text<'a>),
    /// The registers of these names, or all.
    Registers(Option<Text<'a>>),
    /// This much memory from the address that is the value of an expression.
    Examine(Unit, Text<'a>, Option<u32>),
    /// This many instructions from a place, or from where the program stands.
    Disassemble(Option<Place<'a>>, Option<u32>),
    /// The lines round a place, or round where the program stands.
    List(Option<Place<'a>>),
}

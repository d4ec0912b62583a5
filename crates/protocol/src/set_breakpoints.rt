//! The request `setBreakpoints`: the breakpoints at the lines of one source.
ghost use Rattle.std.specs.Prelude.{◌≡◌, IfOk, map};
ghost use Rattle.serde_json.specs.View.{members_view};
ghost use Rattle.protocol.specs.Arguments.{Reads};
ghost use Rattle.protocol.specs.SetBreakpoints.{asked, at_line, set_breakpoints_arguments};

use crate::argument::{Argument, object, optional, required};
use crate::members::{BREAKPOINTS, CONDITION, HIT_CONDITION};
use crate::unread::Unread;
use crate::{Entries, Text};
use serde_json::{Map, Value};
use std::alloc::{AllocError, Global};

/// The request's name.
pub const NAME: &str = "setBreakpoints";

/// The source (`SetBreakpointsArguments.source`).
pub const SOURCE: &str = "source";
/// The source's path (`Source.path`).
pub const PATH: &str = "path";
/// The lines of the breakpoints, in an older form (`SetBreakpointsArguments.lines`).
pub const LINES: &str = "lines";
/// A breakpoint's line (`SourceBreakpoint.line`).
pub const LINE: &str = "line";
/// What a logpoint writes (`SourceBreakpoint.logMessage`).
pub const LOG_MESSAGE: &str = "logMessage";

/// All breakpoints of a source (`SetBreakpointsArguments`).
#[derive(Drop)]
pub struct SetBreakpointsArguments {
    /// The source. Absent: one without a path.
    pub source: Source,
    /// The breakpoints, in the editor's order. Where the editor gives `lines` alone, one without
    /// conditions and log message at each of these. Both absent: none.
    pub breakpoints: Entries<SourceBreakpoint>,
}

/// A source (`Source`).
#[derive(Drop)]
pub struct Source {
    /// Where the source is.
    pub path: Option<Text>,
}

/// A breakpoint at a line (`SourceBreakpoint`).
#[derive(Drop)]
pub struct SourceBreakpoint {
    /// The line, as the editor counts lines, from 0 to 2,147,483,647.
    pub line: u32,
    /// The expression under which it is hit.
    pub condition: Option<Text>,
    /// Which of its hits stops.
    pub hit_condition: Option<Text>,
    /// What it writes instead of stopping, which makes it a logpoint.
    pub log_message: Option<Text>,
}

impl Argument for Source {
    ghost use Rattle.protocol.specs.Arguments.{IsObject};
    ghost use Rattle.protocol.specs.SetBreakpoints.{source_of};

    ghost meaning = { source_of };

    ghost takes_memory = { IsObject };

    fn read(alloc: Global, value: &Value) -> Result<Source, Unread> {
        let members = object(value)?;
        Ok(Source {
            path: optional(alloc, members, PATH)?,
        })
    }
}

impl Argument for SourceBreakpoint {
    ghost use Rattle.protocol.specs.Arguments.{IsObject};
    ghost use Rattle.protocol.specs.SetBreakpoints.{source_breakpoint};

    ghost meaning = { source_breakpoint };

    ghost takes_memory = { IsObject };

    fn read(alloc: Global, value: &Value) -> Result<SourceBreakpoint, Unread> {
        let members = object(value)?;
        Ok(SourceBreakpoint {
            line: required(alloc, members, LINE)?,
            condition: optional(alloc, members, CONDITION)?,
            hit_condition: optional(alloc, members, HIT_CONDITION)?,
            log_message: optional(alloc, members, LOG_MESSAGE)?,
        })
    }
}

/// The arguments; `Bad` where `source` is no object or its path no text; where `breakpoints` is no
/// list of objects, each with a line, or a condition or `logMessage` in it is no text; or where
/// `breakpoints` is absent and `lines` is no list of lines. A line is a whole number from 0 to 2,147,483,647.
pub(crate) fn arguments(
    alloc: Global,
    members: &Map<String, Value>,
) -> Result<SetBreakpointsArguments, Unread>
    ensures { Reads result (set_breakpoints_arguments (members_view members.now.entries)) }
{
    let source = optional(alloc, members, SOURCE)?;
    Ok(SetBreakpointsArguments {
        source: source.unwrap_or(Source { path: None }),
        breakpoints: breakpoints_asked(alloc, members)?,
    })
}

/// The breakpoints, or where there is no list of them, those at the lines.
fn breakpoints_asked(
    alloc: Global,
    members: &Map<String, Value>,
) -> Result<Entries<SourceBreakpoint>, Unread>
    ensures { Reads result (asked (members_view members.now.entries)) }
{
    if let Some(breakpoints) = optional(alloc, members, BREAKPOINTS)? {
        return Ok(breakpoints);
    }
    match optional::<Entries<u32>>(alloc, members, LINES)? {
        Some(lines) => Ok(at_lines(alloc, lines.as_slice())?),
        None => Ok(Entries::from_vec(Vec::new(alloc))),
    }
}

/// A breakpoint without conditions and log message at each line.
fn at_lines(alloc: Global, lines: &[u32]) -> Result<Entries<SourceBreakpoint>, AllocError>
    ensures { IfOk result (λ b. b ≡ map at_line lines.now) }
{
    let mut breakpoints = Vec::with_capacity(alloc, lines.len())?;
    for line in lines {
        breakpoints.push(SourceBreakpoint {
            line: *line,
            condition: None,
            hit_condition: None,
            log_message: None,
        })?;
    }
    Ok(Entries::from_vec(breakpoints))
}

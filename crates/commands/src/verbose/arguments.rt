//! Which argument of a request is bad: the first that is absent where it has to be there, or has another type than the protocol's schema
//! gives it.

use serde_json::{Map, Value};

/// What is wrong with an argument.
#[derive(Clone, Copy)]
pub(crate) struct Slip {
    /// The list that it stands in an entry of, as words before its name; none where it stands by itself.
    pub place: &'static str,
    /// Its name.
    pub name: &'static str,
    /// What it is not.
    pub wrong: &'static str,
}

impl Slip {
    fn of(name: &'static str, wrong: &'static str) -> Slip {
        Slip {
            place: "",
            name,
            wrong,
        }
    }
}

/// What an argument has to be.
#[derive(Clone, Copy)]
enum Kind {
    Text,
    Integer,
    Natural,
    Flag,
    Object,
    List,
    Granularity,
    Filter,
}

impl Kind {
    fn fits(self, value: &Value) -> bool {
        match self {
            Kind::Text => value.as_str().is_some(),
            Kind::Integer => is_integer(value),
            Kind::Natural => is_natural(value),
            Kind::Flag => value.as_bool().is_some(),
            Kind::Object => value.as_object().is_some(),
            Kind::List => value.as_array().is_some(),
            Kind::Granularity => matches!(
                value.as_str(),
                Some("statement" | "line" | "instruction")
            ),
            Kind::Filter => matches!(value.as_str(), Some("indexed" | "named")),
        }
    }

    fn wrong(self) -> &'static str {
        match self {
            Kind::Text => "is no text",
            Kind::Integer => "is no whole number of 32 bits",
            Kind::Natural => "is no whole number from 0 to 2147483647",
            Kind::Flag => "is neither true nor false",
            Kind::Object => "is no object",
            Kind::List => "is no list",
            Kind::Granularity => "is none of statement, line and instruction",
            Kind::Filter => "is neither indexed nor named",
        }
    }
}

fn is_integer(value: &Value) -> bool {
    match value.as_i64() {
        Some(number) => i64::from(i32::MIN) <= number && number <= i64::from(i32::MAX),
        None => false,
    }
}

fn is_natural(value: &Value) -> bool {
    match value.as_u64() {
        Some(number) => number <= i32::MAX as u64,
        None => false,
    }
}

/// What is wrong with the arguments of a request of this name that is refused for them.
pub(crate) fn slip_in(command: &str, arguments: Option<&Value>) -> Option<Slip> {
    match arguments {
        Some(value) if !value.is_null() => match value.as_object() {
            Some(members) => slip_among(command, Some(members)),
            None => Some(Slip::of("arguments", Kind::Object.wrong())),
        },
        _ => slip_among(command, None),
    }
}

fn slip_among(command: &str, members: Option<&Map<String, Value>>) -> Option<Slip> {
    match command {
        "setBreakpoints" | "setFunctionBreakpoints" | "setInstructionBreakpoints" => {
            slip_of_breakpoints(command, members)
        }
        "stackTrace" | "scopes" | "variables" | "evaluate" | "setVariable" => {
            slip_of_a_look(command, members)
        }
        "disassemble" | "readMemory" | "writeMemory" => slip_of_memory(command, members),
        _ => slip_of_control(command, members),
    }
}

fn slip_of_control(command: &str, members: Option<&Map<String, Value>>) -> Option<Slip> {
    match command {
        "initialize" => optional(members, "linesStartAt1", Kind::Flag).or(optional(
            members,
            "columnsStartAt1",
            Kind::Flag,
        )),
        "launch" => needed(members, "program", Kind::Text).or(optional(
            members,
            "stopOnEntry",
            Kind::Flag,
        )),
        "disconnect" => optional(members, "terminateDebuggee", Kind::Flag).or(optional(
            members,
            "suspendDebuggee",
            Kind::Flag,
        )),
        "cancel" => optional(members, "requestId", Kind::Integer),
        "continue" | "pause" | "reverseContinue" => needed(members, "threadId", Kind::Integer),
        "next" | "stepIn" | "stepOut" | "stepBack" => needed(members, "threadId", Kind::Integer).or(
            optional(members, "granularity", Kind::Granularity),
        ),
        _ => None,
    }
}

fn slip_of_a_look(command: &str, members: Option<&Map<String, Value>>) -> Option<Slip> {
    match command {
        "stackTrace" => needed(members, "threadId", Kind::Integer)
            .or(optional(members, "startFrame", Kind::Natural))
            .or(optional(members, "levels", Kind::Natural)),
        "scopes" => needed(members, "frameId", Kind::Integer),
        "variables" => needed(members, "variablesReference", Kind::Integer)
            .or(optional(members, "filter", Kind::Filter))
            .or(optional(members, "start", Kind::Natural))
            .or(optional(members, "count", Kind::Natural)),
        "evaluate" => needed(members, "expression", Kind::Text).or(optional(
            members,
            "frameId",
            Kind::Integer,
        )),
        _ => needed(members, "variablesReference", Kind::Integer)
            .or(needed(members, "name", Kind::Text))
            .or(needed(members, "value", Kind::Text)),
    }
}

fn slip_of_memory(command: &str, members: Option<&Map<String, Value>>) -> Option<Slip> {
    let place = needed(members, "memoryReference", Kind::Text).or(optional(
        members,
        "offset",
        Kind::Integer,
    ));
    match command {
        "disassemble" => place
            .or(optional(members, "instructionOffset", Kind::Integer))
            .or(needed(members, "instructionCount", Kind::Natural)),
        "readMemory" => place.or(needed(members, "count", Kind::Natural)),
        _ => place
            .or(needed(members, "data", Kind::Text))
            .or(optional(members, "allowPartial", Kind::Flag))
            .or(Some(Slip::of("data", "is no base64"))),
    }
}

fn slip_of_breakpoints(command: &str, members: Option<&Map<String, Value>>) -> Option<Slip> {
    match command {
        "setBreakpoints" => slip_of_source(members)
            .or(optional(members, "breakpoints", Kind::List))
            .or(optional(members, "lines", Kind::List))
            .or(slip_of_entries(members, command)),
        _ => needed(members, "breakpoints", Kind::List).or(slip_of_entries(members, command)),
    }
}

fn slip_of_source(members: Option<&Map<String, Value>>) -> Option<Slip> {
    match property(members, "source") {
        Some(source) => match source.as_object() {
            Some(fields) => in_place("source: ", optional(Some(fields), "path", Kind::Text)),
            None => Some(Slip::of("source", Kind::Object.wrong())),
        },
        None => None,
    }
}

fn slip_of_entries(members: Option<&Map<String, Value>>, command: &str) -> Option<Slip> {
    let entries = property(members, "breakpoints")?.as_array()?;
    for entry in entries.as_slice() {
        let slip = match entry.as_object() {
            Some(fields) => slip_of_entry(command, Some(fields)),
            None => Some(Slip::of("it", Kind::Object.wrong())),
        };
        if slip.is_some() {
            return in_place("an entry of breakpoints: ", slip);
        }
    }
    None
}

fn slip_of_entry(command: &str, fields: Option<&Map<String, Value>>) -> Option<Slip> {
    let whereabouts = match command {
        "setBreakpoints" => needed(fields, "line", Kind::Natural).or(optional(
            fields,
            "logMessage",
            Kind::Text,
        )),
        "setFunctionBreakpoints" => needed(fields, "name", Kind::Text),
        _ => needed(fields, "instructionReference", Kind::Text).or(optional(
            fields,
            "offset",
            Kind::Integer,
        )),
    };
    whereabouts
        .or(optional(fields, "condition", Kind::Text))
        .or(optional(fields, "hitCondition", Kind::Text))
}

fn in_place(place: &'static str, slip: Option<Slip>) -> Option<Slip> {
    match slip {
        Some(found) => Some(Slip { place, ..found }),
        None => None,
    }
}

// An argument that has to be there.
fn needed(members: Option<&Map<String, Value>>, name: &'static str, kind: Kind) -> Option<Slip> {
    match property(members, name) {
        Some(_) => optional(members, name, kind),
        None => Some(Slip::of(name, "is absent")),
    }
}

// An argument that may be absent.
fn optional(members: Option<&Map<String, Value>>, name: &'static str, kind: Kind) -> Option<Slip> {
    match property(members, name) {
        Some(value) if !kind.fits(value) => Some(Slip::of(name, kind.wrong())),
        _ => None,
    }
}

// A property that is null counts as absent.
fn property<'v>(members: Option<&'v Map<String, Value>>, name: &str) -> Option<&'v Value> {
    let value = members?.get(name)?;
    if value.is_null() { None } else { Some(value) }
}

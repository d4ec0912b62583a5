//! A program that is a line table alone, and its machine.

ghost use Rattle.std.specs.Prelude.{◌≡◌, ◌≤◌, ◌%◌, IsTrue};
ghost use Rattle.answers.specs.Answers.{sets_breakpoints};

use crate::lists::show_list;
use answers::{BreakAnswer, View, breaks_for};
use image::{Bytes, FIRST_ADDRESS, Image, LineTable};
use indexmap::IndexMap;
use protocol::{Command, Incoming, MessageError, Refusal, Request, Text, read_request};
use replies::{Message, Response, ResponseBody, write_message};
use std::alloc::Global;
use std::str;
use stepping::Runner;
use testing::{Fault, Line, called, rise};
use variables::Handles;

/// The last number that a frame or a scope may have.
pub(crate) const LAST: u32 = 2_147_483_647;

/// A program and its machine, how the editor counts, and the numbers of frames and scopes.
#[derive(Drop)]
pub(crate) struct Program {
    pub(crate) image: Image,
    pub(crate) runner: Runner,
    pub(crate) view: View,
    pub(crate) handles: Handles,
}

impl Program {
    /// The program whose line table has these rows and labels.
    pub(crate) fn new(
        alloc: Global,
        rows: Vec<(u32, u32, u32)>,
        labels: IndexMap<String, u32>,
        end: u32,
        size: u32,
        path: Vec<u8>,
    ) -> Result<Program, Fault> {
        if !rise(&rows, end) || !is_size(size) {
            return Err(Fault::NoCommand);
        }
        let image = Image {
            bytes: Bytes::from_vec(Vec::new(alloc)),
            entry: FIRST_ADDRESS,
            lines: LineTable::new(rows, labels, end),
        };
        let path = String::from_utf8(path).map_err(|_| Fault::NoCommand)?;
        let view = View {
            path: Text::from_string(path),
            line_base: 1,
            column_base: 1,
        };
        let runner = called(Runner::new(alloc, &image, size))?;
        Ok(Program {
            image,
            runner,
            view,
            handles: Handles::new(alloc, LAST),
        })
    }

    /// The editor's first line and column have these numbers from now on.
    pub(crate) fn set_bases(&mut self, bases: (u32, u32)) {
        self.view.line_base = bases.0;
        self.view.column_base = bases.1;
    }

    /// What a request for breakpoints answers, and the list that it sets.
    pub(crate) fn show_breaks(
        &self,
        alloc: Global,
        next: u32,
        request: &[u8],
        line: &mut Line,
    ) -> Result<(), Fault> {
        let request = request_in(alloc, request)?;
        if !is_for_breakpoints(&request.command) || self.view.line_base > 1 || next > 1 << 31 {
            return Err(Fault::NoCommand);
        }
        let BreakAnswer { result, list } = called(breaks_for(
            alloc,
            &request.command,
            &self.runner,
            &self.image,
            &self.view,
            next,
        ))?;
        show_answer(alloc, &request, result, line)?;
        show_list(alloc, &self.runner, list, line)
    }
}

/// The request that a message is.
pub(crate) fn request_in(alloc: Global, body: &[u8]) -> Result<Request, Fault> {
    match read_request(alloc, body) {
        Ok(Incoming::Request(request)) => Ok(request),
        Err(MessageError::NoMemory) => Err(Fault::NoMemory),
        _ => Err(Fault::NoCommand),
    }
}

/// The message of number 1 that answers a request.
pub(crate) fn show_answer(
    alloc: Global,
    request: &Request,
    looked: Result<ResponseBody, Refusal>,
    line: &mut Line,
) -> Result<(), Fault> {
    let response = match looked {
        Ok(body) => Response::success(alloc, request, body)?,
        Err(refusal) => Response::error(alloc, request, refusal)?,
    };
    show_message(alloc, response, line)
}

fn show_message(alloc: Global, response: Response, line: &mut Line) -> Result<(), Fault> {
    let text = write_message(alloc, 1, &Message::Response(response))?;
    let text = str::from_utf8(&text).map_err(|_| Fault::NoCommand)?;
    line.word(text)
}

fn is_for_breakpoints(command: &Command) -> bool
    ensures { result ≡ sets_breakpoints command.now }
{
    matches!(
        command,
        Command::SetBreakpoints(_)
            | Command::SetFunctionBreakpoints(_)
            | Command::SetInstructionBreakpoints(_)
    )
}

// Whether memory can have this many bytes.
fn is_size(size: u32) -> bool
    ensures whole { IsTrue result → size % 4096 ≡ 0 }
    ensures some { IsTrue result → 4096 ≤ size }
    ensures few { IsTrue result → size ≤ 16777216 }
{
    size % 4096 == 0 && size >= 4096 && size <= 16_777_216
}

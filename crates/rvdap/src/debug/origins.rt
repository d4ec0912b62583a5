//! Where a line comes from, and what is written for it.
ghost use Rattle.std.specs.Prelude.{◌≡◌, IfOk};
ghost use Rattle.rvdap.specs.Lines as spec;

use std::alloc::{AllocError, Global};
use std::io::IsTerminal;

/// What a standard stream leads to.
#[derive(Clone, Copy, Debug, PartialEq, Eq)]
pub(crate) enum Peer {
    /// A terminal.
    Terminal,
    /// A file, a pipe or something else.
    Other,
}

/// Where a line comes from.
#[derive(Clone, Copy, Debug, PartialEq, Eq)]
pub(crate) enum Origin {
    /// Somebody types it at a terminal.
    Typed,
    /// It is one of a script, or of a standard input that is no terminal.
    Played,
}

/// What is written before a line that is typed.
const PROMPT: &str = "(rvdap) ";

/// What this stream leads to.
pub(crate) fn peer_of<S: IsTerminal>(stream: &S) -> Peer {
    if stream.is_terminal() {
        Peer::Terminal
    } else {
        Peer::Other
    }
}

/// Where the next line comes from, by what is left of the script and what standard input leads to.
pub(crate) fn origin_of(script: &[u8], input: Peer) -> Origin
    ensures { result ≡ spec.origin_of script.now input }
{
    if script.is_empty() {
        origin_at(input)
    } else {
        Origin::Played
    }
}

fn origin_at(input: Peer) -> Origin
    ensures { result ≡ spec.origin_at input }
{
    match input {
        Peer::Terminal => Origin::Typed,
        Peer::Other => Origin::Played,
    }
}

/// What is written before a line is read.
pub(crate) fn prompt_of(origin: Origin, output: Peer) -> &'static str
    ensures { result.now ≡ spec.prompt_of origin output }
{
    match (origin, output) {
        (Origin::Typed, Peer::Terminal) => PROMPT,
        (Origin::Typed, Peer::Other) | (Origin::Played, _) => "",
    }
}

/// What is written where the input ends.
pub(crate) fn end_of(origin: Origin, output: Peer) -> &'static str
    ensures { result.now ≡ spec.end_of origin output }
{
    match (origin, output) {
        (Origin::Typed, Peer::Terminal) => "\n",
        (Origin::Played, _) | (Origin::Typed, Peer::Other) => "",
    }
}

/// What is written once a line was read.
pub(crate) fn echo_of(alloc: Global, origin: Origin, line: &[u8]) -> Result<Vec<u8>, AllocError>
    ensures { IfOk result (λ text. text.items ≡ spec.echo_of origin line.now) }
{
    match origin {
        Origin::Typed => Ok(Vec::new(alloc)),
        Origin::Played => transcript(alloc, line),
    }
}

fn transcript(alloc: Global, line: &[u8]) -> Result<Vec<u8>, AllocError>
    ensures { IfOk result (λ text. text.items ≡ spec.echo_of Origin.Played line.now) }
{
    let mut text = Vec::from_slice(alloc, PROMPT.as_bytes())?;
    text.extend_from_slice(line)?;
    text.extend_from_slice(b"\n")?;
    Ok(text)
}

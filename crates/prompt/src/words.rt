//! The words that a line may begin with.
ghost use Rattle.std.specs.Prelude.{◌≡◌};
ghost use Rattle.prompt.specs.Words as spec;
ghost use Rattle.prompt.specs.Words.{named};

/// What is asked for by a word alone.
#[derive(Clone, Copy, PartialEq, Eq)]
pub enum Plain {
    /// To leave.
    Quit,
    /// To run the program from its beginning, with the file as it is now.
    Run,
    /// The breakpoints.
    Breakpoints,
    /// The words of the stack.
    Stack,
    /// The calls.
    Backtrace,
    /// The labels.
    Labels,
    /// Where the program stands.
    Where,
}

/// How the program moves.
#[derive(Clone, Copy, PartialEq, Eq)]
pub enum Motion {
    /// On to a breakpoint.
    Continue,
    /// On to another line.
    Step,
    /// The same, over calls.
    Next,
    /// On to the end of the call.
    Finish,
    /// One instruction on.
    StepInstruction,
    /// The same, over a call.
    NextInstruction,
    /// One instruction back.
    Back,
    /// Back to a breakpoint.
    ReverseContinue,
}

/// Which way a change is looked for.
#[derive(Clone, Copy, PartialEq, Eq)]
pub enum Direction {
    /// On.
    Forward,
    /// Back.
    Backward,
}

/// What memory is shown as.
#[derive(Clone, Copy, PartialEq, Eq)]
pub enum Unit {
    /// Words of four bytes.
    Words,
    /// Bytes, and the characters that they are.
    Bytes,
}

/// What a line asks for, by its word.
#[derive(Clone, Copy, PartialEq, Eq)]
pub(crate) enum Word {
    /// Nothing belongs to it.
    Plain(Plain),
    /// `[N]`.
    Motion(Motion),
    /// `[WORD]`.
    Help,
    /// `WHERE [if EXPR] [hit N]`.
    Break,
    /// The same, and the breakpoint goes once it is met.
    Tbreak,
    /// `WHERE TEXT`.
    Log,
    /// `[N]`.
    Delete,
    /// `EXPR`.
    Change(Direction),
    /// `EXPR`, or `REG = VALUE`.
    Print,
    /// `EXPR`.
    Display,
    /// `[N]`.
    Undisplay,
    /// `REG = VALUE`, or `[ADDRESS] = VALUE`.
    Set,
    /// `[NAME..]`.
    Registers,
    /// `EXPR [N]`.
    Examine(Unit),
    /// `[WHERE] [N]`.
    Disassemble,
    /// `[WHERE]`.
    List,
}

/// What a word asks for. `None`: it is none that is known.
pub(crate) fn word_of(name: &str) -> Option<Word>
    ensures { result ≡ spec.word_of name.now }
{
    if let Some(plain) = session_words(name) {
        return Some(Word::Plain(plain));
    }
    if let Some(plain) = looking_words(name) {
        return Some(Word::Plain(plain));
    }
    if let Some(motion) = forward_words(name) {
        return Some(Word::Motion(motion));
    }
    if let Some(motion) = other_motions(name) {
        return Some(Word::Motion(motion));
    }
    if let Some(word) = breakpoint_words(name) {
        return Some(word);
    }
    if let Some(word) = value_words(name) {
        return Some(word);
    }
    view_words(name)
}

fn session_words(name: &str) -> Option<Plain>
    ensures { result ≡ named spec.session_words name.now }
{
    match name {
        "quit" => Some(Plain::Quit),
        "q" => Some(Plain::Quit),
        "exit" => Some(Plain::Quit),
        "run" => Some(Plain::Run),
        "r" => Some(Plain::Run),
        "restart" => Some(Plain::Run),
        _ => None,
    }
}

fn looking_words(name: &str) -> Option<Plain>
    ensures { result ≡ named spec.looking_words name.now }
{
    match name {
        "breakpoints" => Some(Plain::Breakpoints),
        "i" => Some(Plain::Breakpoints),
        "stack" => Some(Plain::Stack),
        "backtrace" => Some(Plain::Backtrace),
        "bt" => Some(Plain::Backtrace),
        "labels" => Some(Plain::Labels),
        "where" => Some(Plain::Where),
        "frame" => Some(Plain::Where),
        "f" => Some(Plain::Where),
        _ => None,
    }
}

fn forward_words(name: &str) -> Option<Motion>
    ensures { result ≡ named spec.forward_words name.now }
{
    match name {
        "continue" => Some(Motion::Continue),
        "c" => Some(Motion::Continue),
        "step" => Some(Motion::Step),
        "s" => Some(Motion::Step),
        "next" => Some(Motion::Next),
        "n" => Some(Motion::Next),
        "finish" => Some(Motion::Finish),
        "fin" => Some(Motion::Finish),
        _ => None,
    }
}

fn other_motions(name: &str) -> Option<Motion>
    ensures { result ≡ named spec.other_motions name.now }
{
    match name {
        "stepi" => Some(Motion::StepInstruction),
        "si" => Some(Motion::StepInstruction),
        "nexti" => Some(Motion::NextInstruction),
        "ni" => Some(Motion::NextInstruction),
        "back" => Some(Motion::Back),
        "reverse-stepi" => Some(Motion::Back),
        "rsi" => Some(Motion::Back),
        "reverse-continue" => Some(Motion::ReverseContinue),
        "rc" => Some(Motion::ReverseContinue),
        _ => None,
    }
}

fn breakpoint_words(name: &str) -> Option<Word>
    ensures { result ≡ named spec.breakpoint_words name.now }
{
    match name {
        "break" => Some(Word::Break),
        "b" => Some(Word::Break),
        "tbreak" => Some(Word::Tbreak),
        "tb" => Some(Word::Tbreak),
        "log" => Some(Word::Log),
        "delete" => Some(Word::Delete),
        "d" => Some(Word::Delete),
        "help" => Some(Word::Help),
        "h" => Some(Word::Help),
        _ => None,
    }
}

fn value_words(name: &str) -> Option<Word>
    ensures { result ≡ named spec.value_words name.now }
{
    match name {
        "print" => Some(Word::Print),
        "p" => Some(Word::Print),
        "set" => Some(Word::Set),
        "display" => Some(Word::Display),
        "undisplay" => Some(Word::Undisplay),
        "change" => Some(Word::Change(Direction::Forward)),
        "back-to-change" => Some(Word::Change(Direction::Backward)),
        _ => None,
    }
}

fn view_words(name: &str) -> Option<Word>
    ensures { result ≡ named spec.view_words name.now }
{
    match name {
        "registers" => Some(Word::Registers),
        "regs" => Some(Word::Registers),
        "x" => Some(Word::Examine(Unit::Words)),
        "xb" => Some(Word::Examine(Unit::Bytes)),
        "disassemble" => Some(Word::Disassemble),
        "disas" => Some(Word::Disassemble),
        "list" => Some(Word::List),
        "l" => Some(Word::List),
        _ => None,
    }
}

//! A conversation about a program: lines in, screens out.

use crate::debug::input::Input;
use crate::debug::lines::LONGEST_LINE;
use crate::debug::origins::Origin;
use crate::debug::output::Output;
use commands::{ExitReason, MemorySize, NoProgram, program_text};
use console::{Console, Waits};
use std::alloc::{AllocError, Global};

/// How many moves the program is given between two looks for a line: some milliseconds at most.
const MOVES: u32 = 100_000;

// What the console is told where the input has ended.
const QUIT: &[u8] = b"quit";

/// What there is of a conversation beside the console.
#[derive(Drop)]
pub(crate) struct Conversation<'a> {
    rt: &'a HostRuntime,
    program: Program<'a>,
    input: Input<'a>,
    output: Output<'a>,
    // Where the last line came from.
    origin: Origin,
    // Whether a line was refused that was played.
    failed: bool,
}

/// The program: its file, and what that held when it was launched last.
#[derive(Drop)]
pub(crate) struct Program<'a> {
    /// The path of the file, as it was given.
    pub file: &'a str,
    /// How much memory it gets.
    pub memory: MemorySize,
    /// Its text.
    pub text: Vec<u8>,
}

// Whether the conversation goes on.
#[derive(Clone, Copy, PartialEq, Eq)]
enum Next {
    More,
    End,
}

impl<'a> Conversation<'a> {
    /// A conversation in which nothing was said yet. The lines of the script come first. The error is that no memory was left.
    pub(crate) fn new(
        rt: &'a HostRuntime,
        program: Program<'a>,
        script: &'a [u8],
    ) -> Result<Conversation<'a>, ExitReason> {
        let output = Output::new(rt)?;
        let input = Input::new(rt, script)?;
        Ok(Conversation {
            rt,
            program,
            origin: input.origin(),
            input,
            output,
            failed: false,
        })
    }

    /// The program.
    pub(crate) fn program(&self) -> &Program<'a> {
        &self.program
    }

    /// Whether a line was refused that nobody typed.
    pub(crate) fn failed(&self) -> bool {
        self.failed
    }

    /// Launches the program, and holds the conversation to its end.
    pub(crate) fn hold(&mut self, console: &mut Console) -> Result<(), ExitReason> {
        self.launch(console)?;
        for _ in 0..u64::MAX {
            let next = self.step(console)?;
            self.note(console.was_refused());
            if next == Next::End {
                break;
            }
        }
        Ok(())
    }

    // Does what the console waits for.
    fn step(&mut self, console: &mut Console) -> Result<Next, ExitReason> {
        match console.waits() {
            Waits::Line => self.take_line(console),
            Waits::Time => self.give_time(console),
            Waits::File => self.launch_anew(console),
            Waits::Nothing => Ok(Next::End),
        }
    }

    fn launch(&self, console: &mut Console) -> Result<Next, ExitReason> {
        self.output
            .show(console.launch(self.program.text.as_slice()))?;
        Ok(Next::More)
    }

    // Takes a line, and shows what it leads to.
    fn take_line(&mut self, console: &mut Console) -> Result<Next, ExitReason> {
        self.origin = self.input.origin();
        self.output.ask(self.origin)?;
        self.input.take()?;
        if self.input.is_at_end() {
            return self.end(console);
        }
        match self.input.line() {
            Some(line) => {
                self.output.echo(self.origin, line)?;
                self.output.show(console.enter(line))?;
            }
            None => self.refuse_line()?,
        }
        Ok(Next::More)
    }

    // A line came that is too long.
    fn refuse_line(&mut self) -> Result<(), ExitReason> {
        self.output.echo(self.origin, b"")?;
        self.refuse(too_long(self.rt.alloc()))?;
        self.note(true);
        Ok(())
    }

    // The input has ended: it goes on as if somebody had said so.
    fn end(&self, console: &mut Console) -> Result<Next, ExitReason> {
        self.output.end(self.origin)?;
        self.output.show(console.enter(QUIT))?;
        Ok(Next::End)
    }

    // Gives the program time; a line that is typed meanwhile pauses it, whatever it says, and then it has the time to stop.
    fn give_time(&mut self, console: &mut Console) -> Result<Next, ExitReason> {
        if self.input.origin() == Origin::Typed && self.input.is_ready()? {
            self.input.take()?;
            self.output.show(console.pause())?;
        }
        self.output.show(console.run(MOVES))?;
        Ok(Next::More)
    }

    // Launches what the file holds now; where that is no program, what it held before.
    fn launch_anew(&mut self, console: &mut Console) -> Result<Next, ExitReason> {
        match program_text(self.rt, self.program.file, self.program.memory) {
            Ok(text) => self.program.text = text,
            Err(why) => self.keep_program(why)?,
        }
        self.launch(console)
    }

    fn keep_program(&mut self, why: NoProgram) -> Result<(), ExitReason> {
        let file = self.program.file;
        let words = match why {
            NoProgram::Unreadable => format!(in self.rt.alloc(); "{file}: cannot read\n"),
            NoProgram::Wrong(lines) => Ok(lines),
            NoProgram::NoMemory => Err(AllocError),
        };
        self.refuse(words)?;
        self.output.refuse("the program is launched as it was\n")?;
        self.note(true);
        Ok(())
    }

    fn refuse(&self, words: Result<String, AllocError>) -> Result<(), ExitReason> {
        match words {
            Ok(words) => self.output.refuse(words.as_str()),
            Err(_) => Err(ExitReason::NoMemory),
        }
    }

    // Notes whether the last line was refused, or something that it led to.
    fn note(&mut self, was_refused: bool) {
        if was_refused && self.origin == Origin::Played {
            self.failed = true;
        }
    }
}

fn too_long(alloc: Global) -> Result<String, AllocError> {
    format!(in alloc; "a line has at most {LONGEST_LINE} bytes\n")
}

//! Requests, and what they are answered.

use crate::console::Console;
use crate::piece::Tone;
use protocol::{Command, Refusal, Request, Text};
use replies::{Category, Event, Message, Outcome, Output, Response, ResponseBody};
use std::alloc::AllocError;

/// What a request was answered.
#[derive(Drop)]
pub(crate) enum Answer {
    /// It succeeded, with this body.
    Done(ResponseBody),
    /// It was refused; the refusal may have a text of its own.
    Refused(Refusal, Option<Text>),
    /// The session takes no more requests.
    Unsent,
}

impl Console {
    /// Asks the session. It fails where no memory is left.
    pub(crate) fn ask(&mut self, command: Command) -> Result<Answer, AllocError> {
        self.ask_with(command, None)
    }

    /// The same, with the file that the answer may want.
    pub(crate) fn ask_with(
        &mut self,
        command: Command,
        file: Option<&[u8]>,
    ) -> Result<Answer, AllocError> {
        let request = Request {
            seq: self.link.last().saturating_add(1),
            command,
        };
        let was_sent = self.link.send(&request);
        drop(request);
        if !was_sent? {
            return Ok(Answer::Unsent);
        }
        self.link.turn(file)?;
        self.hear()
    }

    /// Takes what the session says: events are noted, and what the last response was is told.
    pub(crate) fn hear(&mut self) -> Result<Answer, AllocError> {
        let mut answer = Answer::Unsent;
        for message in self.link.take()? {
            match message {
                Message::Response(response) => answer = answer_of(response),
                Message::Event(event) => self.note(event)?,
            }
        }
        Ok(answer)
    }

    fn note(&mut self, event: Event) -> Result<(), AllocError> {
        match event {
            Event::Output(output) => self.print(output),
            Event::Stopped(stopped) => {
                self.stop = Some(stopped);
                Ok(())
            }
            Event::Terminated => {
                self.has_ended = true;
                Ok(())
            }
            Event::Initialized | Event::Continued | Event::Exited(_) => Ok(()),
        }
    }

    fn print(&mut self, output: Output) -> Result<(), AllocError> {
        let tone = match output.category {
            Category::Console => Tone::Plain,
            Category::Stdout => Tone::Program,
        };
        self.page.say(tone, output.output.as_str())
    }

    /// Does what a request asks for that is answered without a body; otherwise it says why not. Whether it was done is told.
    pub(crate) fn does(&mut self, command: Command) -> Result<bool, AllocError> {
        let answer = self.ask(command)?;
        self.is_done(answer)
    }

    /// Whether a request was done; if not, why is said.
    pub(crate) fn is_done(&mut self, answer: Answer) -> Result<bool, AllocError> {
        match answer {
            Answer::Done(_) => Ok(true),
            Answer::Refused(refusal, text) => {
                self.refuse_for(refusal, text)?;
                Ok(false)
            }
            Answer::Unsent => {
                self.refuse("the session takes no more requests: begin anew by run")?;
                Ok(false)
            }
        }
    }

    // Says why a request was refused.
    fn refuse_for(&mut self, refusal: Refusal, text: Option<Text>) -> Result<(), AllocError> {
        match text {
            Some(text) => self.refuse(text.as_str()),
            None => self.refuse(words_of(refusal)),
        }
    }

    /// Says why a line is refused.
    pub(crate) fn refuse(&mut self, words: &str) -> Result<(), AllocError> {
        self.was_refused = true;
        self.page.say(Tone::Refusal, words)?;
        self.page.say(Tone::Plain, "\n")
    }

    /// Says a line.
    pub(crate) fn say(&mut self, words: &str) -> Result<(), AllocError> {
        self.page.say(Tone::Plain, words)
    }
}

fn answer_of(response: Response) -> Answer {
    let Response { outcome, .. } = response;
    match outcome {
        Outcome::Done(body) => Answer::Done(body),
        Outcome::Refused(refusal, text) => Answer::Refused(refusal, text),
    }
}

/// What a refusal means to somebody who typed a line.
pub(crate) fn words_of(refusal: Refusal) -> &'static str {
    match refusal {
        Refusal::WrongPhase | Refusal::NoMachine => "there is no program",
        Refusal::Ended => "the program has ended: run begins anew",
        Refusal::NotStopped => "the program runs: Enter stops it",
        Refusal::NoHistory => "nothing before this is recorded",
        Refusal::BadMemoryReference => "no address",
        Refusal::TooMuch => "too much at once: 1,024 breakpoints, 65,536 bytes, 4,096 instructions",
        Refusal::OutsideMemory => "outside memory",
        Refusal::UnknownName => "no such register",
        Refusal::NotWritable => "zero and pc cannot be set",
        Refusal::BadExpression => "no expression",
        Refusal::BadValue => "no value",
        other => other.name(),
    }
}

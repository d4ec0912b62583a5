//! A session is recorded in a folder: its script, copies of the programs that it launched, and what it began with.

ghost use Rattle.std.specs.Prelude.{None};

use crate::recorded_files::{ScriptFile, TextFiles, joined_path, say_end, write_new};
use options::Options;
use protocol::Text;
use scripts::{ScriptRecorder, StepRef};
use session::Bytes;
use std::fs::File;
use std::io::ErrorKind;
use std::{fs, io};
use transport::{EventRef, Recorder};

/// The script, in the form of `watch`.
const SCRIPT: &str = "session.watch";

/// What the program was given.
pub(crate) const OPTIONS: &str = "session.options";

/// The copy of the program that is given.
pub(crate) const PROGRAM: &str = "program.s";

/// A recording.
#[derive(Drop)]
pub(crate) struct Recording<'a> {
    rt: &'a HostRuntime,
    folder: &'a str,
    recorder: ScriptRecorder<ScriptFile, TextFiles<'a>>,
    editors: u32,
}

impl<'a> Recording<'a> {
    /// A recording in a folder, which is made, or has to be empty. The error says why there is none.
    pub(crate) fn begin(
        rt: &'a HostRuntime,
        folder: &'a str,
        options: &Options,
        program: Option<&(Text, Bytes)>,
    ) -> io::Result<Recording<'a>> {
        make_empty(rt, folder)?;
        write_options(rt, folder, options, program)?;
        let script = File::create_new(rt, joined_path(rt.alloc(), folder, SCRIPT)?.as_str())?;
        let copies = TextFiles::new(rt, folder);
        Ok(Recording {
            rt,
            folder,
            recorder: ScriptRecorder::new(rt.alloc(), ScriptFile::new(script), copies),
            editors: 0,
        })
    }

    /// Ends the recording: all for the last editor is watched.
    pub(crate) fn end(&mut self) {
        let was_recording = self.recorder.is_recording();
        if !self.recorder.finish(self.editors.max(1)) && was_recording {
            self.say_why();
        }
    }

    fn tell_event(&mut self, event: EventRef<'_>) {
        match event {
            EventRef::Connect => {
                self.editors = self.editors.saturating_add(1);
                self.recorder.tell(StepRef::Connect);
            }
            EventRef::Recv(piece) => self.recorder.tell(StepRef::Recv(piece)),
            EventRef::Turn(Some(text)) => self.recorder.tell_turn(text),
            EventRef::Turn(None) => self.recorder.tell(StepRef::Turn(None)),
            EventRef::Slice(moves) => self.recorder.tell(StepRef::Slice(moves)),
            EventRef::Hold => self.recorder.tell(StepRef::Hold),
            EventRef::Sent(count) => self.recorder.tell(StepRef::Sent(count as u64)),
            EventRef::DropConnection => self.recorder.tell(StepRef::DropConnection),
        }
    }

    // Says why the recording has ended.
    fn say_why(&self) {
        match self.recorder.script().error() {
            Some(error) => say_end(self.rt, self.folder, Some(error)),
            None => say_end(self.rt, self.folder, self.recorder.copies().error()),
        }
    }
}

// What is recorded is in no contract here, but in those of `scripts`.
impl Recorder for Recording<'_> {
    ghost told = { λ recording. None };

    // The first event that could not be recorded is said on standard error; the session continues.
    fn tell(&mut self, event: EventRef<'_>) {
        let was_recording = self.recorder.is_recording();
        self.tell_event(event);
        if was_recording && !self.recorder.is_recording() {
            self.say_why();
        }
    }
}

fn make_empty(rt: &HostRuntime, folder: &str) -> io::Result<()> {
    match fs::create_dir(rt, folder) {
        Ok(()) => Ok(()),
        Err(error) if error.kind() == ErrorKind::AlreadyExists => see_empty(rt, folder),
        Err(error) => Err(error),
    }
}

fn see_empty(rt: &HostRuntime, folder: &str) -> io::Result<()> {
    match fs::read_dir(rt, folder)?.next() {
        None => Ok(()),
        Some(Ok(_)) => Err(ErrorKind::DirectoryNotEmpty.into()),
        Some(Err(error)) => Err(error),
    }
}

// Keeps what the session begins with: its memory, and the program that is given, with its path.
fn write_options(
    rt: &HostRuntime,
    folder: &str,
    options: &Options,
    program: Option<&(Text, Bytes)>,
) -> io::Result<()> {
    let memory = options.memory;
    let Some((path, text)) = program else {
        let lines = format!(in rt.alloc(); "memory {memory}\n")?;
        return write_new(rt, folder, OPTIONS, lines.as_bytes());
    };
    write_new(rt, folder, PROGRAM, text.as_slice())?;
    let path = path.as_str();
    let lines = format!(in rt.alloc(); "memory {memory}\nprogram {path}\n")?;
    write_new(rt, folder, OPTIONS, lines.as_bytes())
}

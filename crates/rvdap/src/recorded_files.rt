//! The files of a recording.
ghost use Rattle.std.specs.Prelude.{None};

use commands::say;
use scripts::Copies;
use std::alloc::{AllocError, Global};
use std::fs::File;
use std::io;
use std::io::Write;

/// A name in a folder.
pub(crate) fn joined_path(alloc: Global, folder: &str, name: &str) -> Result<String, AllocError> {
    let mut path = String::from_str(alloc, folder)?;
    if !folder.is_empty() && !folder.ends_with('/') {
        path.push('/')?;
    }
    path.push_str(name)?;
    Ok(path)
}

/// Writes a file of a folder that is not there yet.
pub(crate) fn write_new(rt: &HostRuntime, folder: &str, name: &str, text: &[u8]) -> io::Result<()> {
    let path = joined_path(rt.alloc(), folder, name)?;
    let mut file = File::create_new(rt, path.as_str())?;
    file.write_all(text)
}

/// Says on standard error that a recording ends: for the error of a file, or since no memory was left.
pub(crate) fn say_end(rt: &HostRuntime, folder: &str, error: Option<&io::Error>) {
    match error {
        Some(error) => say(
            rt,
            format_args!("rvdap: {folder}: the recording ends: {error}\n"),
        ),
        None => say(
            rt,
            format_args!("rvdap: {folder}: the recording ends: no memory\n"),
        ),
    }
}

/// The script of a recording.
#[derive(Drop)]
pub(crate) struct ScriptFile {
    file: File,
    error: Option<io::Error>,
}

impl ScriptFile {
    /// The script that is written to this file.
    pub(crate) fn new(file: File) -> ScriptFile {
        ScriptFile { file, error: None }
    }

    /// The last error of writing it.
    pub(crate) fn error(&self) -> Option<&io::Error> {
        self.error.as_ref()
    }
}

impl Write for ScriptFile {
    ghost contents = { λ script. None };

    fn write(&mut self, text: &[u8]) -> io::Result<usize> {
        match self.file.write(text) {
            Ok(count) => Ok(count),
            Err(error) => {
                let kind = error.kind();
                self.error = Some(error);
                Err(kind.into())
            }
        }
    }

    fn flush(&mut self) -> io::Result<()> {
        self.file.flush()
    }
}

/// The copies of a recording.
#[derive(Drop)]
pub(crate) struct TextFiles<'a> {
    rt: &'a HostRuntime,
    folder: &'a str,
    error: Option<io::Error>,
}

impl<'a> TextFiles<'a> {
    /// Copies in this folder.
    pub(crate) fn new(rt: &'a HostRuntime, folder: &'a str) -> TextFiles<'a> {
        TextFiles {
            rt,
            folder,
            error: None,
        }
    }

    /// Why a copy was not kept.
    pub(crate) fn error(&self) -> Option<&io::Error> {
        self.error.as_ref()
    }

    fn written(&self, number: u32, text: &[u8]) -> io::Result<()> {
        let name = format!(in self.rt.alloc(); "{number}.s")?;
        write_new(self.rt, self.folder, name.as_str(), text)
    }
}

impl Copies for TextFiles<'_> {
    ghost kept = { λ copies. None };

    fn keep(&mut self, number: u32, text: &[u8]) -> bool {
        match self.written(number, text) {
            Ok(()) => true,
            Err(error) => {
                self.error = Some(error);
                false
            }
        }
    }
}

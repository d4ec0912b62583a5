//! What a script is played with: what it begins with, where that is kept beside it, and its files.
ghost use Rattle.std.specs.Prelude.{◌≤◌, None, IfOk, IfSome, length};
ghost use Rattle.std.specs.Str.{IsUtf8};
ghost use Rattle.watch_command.specs.Playing.{HasShortPath};

use crate::disk::{Disk, bytes_in};
use crate::recorded_files::joined_path;
use crate::recordings::PROGRAM;
use protocol::Text;
use session::{Bytes, Config};
use std::alloc::Global;
use std::str;
use transport::{FileFault, Files, LONGEST_TEXT};

/// The most bytes that a script may have.
const LONGEST_SCRIPT: usize = 16_777_216;

/// How much memory a machine has where nothing is said of it.
const MEMORY_SIZE: u32 = 1_048_576;

/// The script in a file.
pub(crate) fn script_in(rt: &HostRuntime, file: &str) -> Result<Vec<u8>, FileFault> {
    bytes_in(rt, rt.alloc(), file, LONGEST_SCRIPT)
}

/// What a session begins with by a script, and the folder of its files: where `X.options` stands beside `X.watch`, a recording, what that
/// says, and the script's folder; else 1 MiB of memory and no program, and the folder in which `rvdap` was started.
pub(crate) fn beginning(rt: &HostRuntime, script: &str) -> Result<(Config, String), FileFault>
    ensures { IfOk result (λ begun. HasShortPath begun.0) }
{
    let name = script.strip_suffix(".watch").unwrap_or(script);
    let mut options = String::from_str(rt.alloc(), name)?;
    options.push_str(".options")?;
    match bytes_in(rt, rt.alloc(), options.as_str(), LONGEST_TEXT) {
        Ok(lines) => recorded(rt, folder_of(script), lines.as_slice()),
        Err(FileFault::Unreadable) => Ok((plain(), String::new(rt.alloc()))),
        Err(FileFault::NoMemory) => Err(FileFault::NoMemory),
    }
}

fn plain() -> Config
    ensures { HasShortPath result }
{
    Config {
        memory_size: MEMORY_SIZE,
        program: None,
    }
}

// The folder of a file, with its last slash.
fn folder_of(file: &str) -> &str {
    match file.rfind('/') {
        Some(end) => &file[..end + 1],
        None => "",
    }
}

// What a recording begins with.
fn recorded(rt: &HostRuntime, folder: &str, lines: &[u8]) -> Result<(Config, String), FileFault>
    ensures { IfOk result (λ begun. HasShortPath begun.0) }
{
    let Ok(lines) = str::from_utf8(lines) else {
        return Err(FileFault::Unreadable);
    };
    let Some(memory_size) = memory_in(lines) else {
        return Err(FileFault::Unreadable);
    };
    let folder_kept = String::from_str(rt.alloc(), folder)?;
    let config = Config {
        memory_size,
        program: program_in(rt, folder, lines)?,
    };
    Ok((config, folder_kept))
}

// How many bytes a machine gets by the line `memory KIB`.
fn memory_in(lines: &str) -> Option<u32> {
    let digits = lines.lines().find_map(|line| line.strip_prefix("memory "))?;
    digits.parse::<u32>().ok()?.checked_mul(1_024)
}

// The program of the line `program PATH`, and the copy of its text.
fn program_in(
    rt: &HostRuntime,
    folder: &str,
    lines: &str,
) -> Result<Option<(Text, Bytes)>, FileFault>
    ensures { IfOk result (λ given. IfSome given
        (λ program. IsUtf8 program.0 × (length program.0 ≤ 1048576))) }
{
    match lines.lines().find_map(|line| line.strip_prefix("program ")) {
        Some(path) => Ok(Some(copied(rt, folder, path)?)),
        None => Ok(None),
    }
}

fn copied(rt: &HostRuntime, folder: &str, path: &str) -> Result<(Text, Bytes), FileFault>
    ensures { IfOk result (λ given. IsUtf8 given.0 × (length given.0 ≤ 1048576)) }
{
    if path.len() > LONGEST_TEXT {
        return Err(FileFault::Unreadable);
    }
    let copy = joined_path(rt.alloc(), folder, PROGRAM)?;
    let text = bytes_in(rt, rt.alloc(), copy.as_str(), LONGEST_TEXT)?;
    let path = String::from_str(rt.alloc(), path)?;
    Ok((Text::from_string(path), Bytes::from_vec(text)))
}

/// The files of a script: a relative path is one in this folder.
#[derive(Drop)]
pub(crate) struct FilesIn<'a> {
    disk: Disk<'a>,
    folder: &'a str,
}

impl<'a> FilesIn<'a> {
    /// The files of this folder.
    pub(crate) fn new(rt: &'a HostRuntime, folder: &'a str) -> FilesIn<'a> {
        FilesIn {
            disk: Disk::new(rt),
            folder,
        }
    }
}

impl Files for FilesIn<'_> {
    ghost past = { λ files. None };

    fn read(&mut self, alloc: Global, path: &str) -> Result<Bytes, FileFault> {
        if path.starts_with('/') || self.folder.is_empty() {
            return self.disk.read(alloc, path);
        }
        let there = joined_path(alloc, self.folder, path)?;
        self.disk.read(alloc, there.as_str())
    }
}

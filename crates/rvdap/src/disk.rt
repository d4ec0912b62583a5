//! The files of the computer that the program runs on.
ghost use Rattle.std.specs.Prelude.{◌≤◌, None, IfOk, vec_len};

use session::Bytes;
use std::alloc::Global;
use std::fs::{File, Metadata};
use std::io::{ErrorKind, Read};
use std::{fs, io};
use transport::{FileFault, Files, LONGEST_TEXT};

/// The files of the computer that the program runs on. What is no regular file, as a folder, a device
/// or a pipe, is not read: that might never end.
#[derive(Drop)]
pub(crate) struct Disk<'a> {
    rt: &'a HostRuntime,
}

impl<'a> Disk<'a> {
    /// The files that this runtime reaches.
    pub(crate) fn new(rt: &'a HostRuntime) -> Disk<'a> {
        Disk { rt }
    }
}

// What the computer's files hold is in no contract, nor which reads they have answered.
impl Files for Disk<'_> {
    ghost past = { λ disk. None };

    fn read(&mut self, alloc: Global, path: &str) -> Result<Bytes, FileFault> {
        match bytes_in(self.rt, alloc, path, LONGEST_TEXT) {
            Ok(text) => Ok(Bytes::from_vec(text)),
            Err(fault) => Err(fault),
        }
    }
}

/// The bytes of a regular file, at most `most` of them.
pub(crate) fn bytes_in(
    rt: &HostRuntime,
    alloc: Global,
    path: &str,
    most: usize,
) -> Result<Vec<u8>, FileFault>
    ensures { IfOk result (λ bytes. vec_len bytes ≤ most) }
{
    let bytes = match read_some(rt, alloc, path, most) {
        Ok(bytes) => bytes,
        Err(error) => return Err(unread(&error)),
    };
    if bytes.len() > most {
        return Err(FileFault::Unreadable);
    }
    Ok(bytes)
}

// A regular file's bytes, up to one more than it may have. It is looked at before it is opened, since to open a device may do
// something, and then again, since it may have been replaced.
fn read_some(rt: &HostRuntime, alloc: Global, path: &str, most: usize) -> io::Result<Vec<u8>> {
    see_file(&fs::metadata(rt, path)?)?;
    let file = File::open(rt, path)?;
    see_file(&file.metadata()?)?;
    let mut bytes = Vec::new(alloc);
    file.take((most as u64).saturating_add(1))
        .read_to_end(&mut bytes)?;
    Ok(bytes)
}

// Fails on what is no regular file.
fn see_file(found: &Metadata) -> io::Result<()> {
    if found.is_file() {
        Ok(())
    } else {
        Err(ErrorKind::InvalidInput.into())
    }
}

fn unread(error: &io::Error) -> FileFault {
    match error.kind() {
        ErrorKind::OutOfMemory => FileFault::NoMemory,
        _ => FileFault::Unreadable,
    }
}

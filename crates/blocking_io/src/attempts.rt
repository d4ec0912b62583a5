//! Calls that may be made again, each by itself.
ghost use Rattle.std.specs.Prelude.{IfErr};
ghost use Rattle.std.specs.Io.{ReadsAtMost, WritesAtMost};
ghost use Rattle.std.specs.Io.KnownBytes.{ReadConsumes, WriteAppends};
ghost use Rattle.std.specs.declared.io.Error.{Error};

use std::io;
use std::io::{Read, Write};

/// A reader, with something that holds of each error that a read of it fails with. A function over whatever such readers knows
/// nothing else of that something: where it shows it of its own error, it made none up.
pub trait FallibleRead: Read {
    ghost fails_with: { Error → Type 0 };

    /// Reads once.
    fn attempt_read(&mut self, buf: &mut [u8]) -> io::Result<usize>
        ensures bound { ReadsAtMost result buf.new }
        ensures bytes { ReadConsumes (Self.remaining self.old) (Self.remaining self.new) result
            buf.new }
        ensures fails { IfErr result fails_with };
}

impl<R: Read> FallibleRead for R {
    ghost fails_with = { λ e. Unit {0} };

    fn attempt_read(&mut self, buf: &mut [u8]) -> io::Result<usize> {
        self.read(buf)
    }
}

/// A writer, with something that holds of each error that a write to it fails with, as of a reader.
pub trait FallibleWrite: Write {
    ghost fails_with: { Error → Type 0 };

    /// Writes once.
    fn attempt_write(&mut self, buf: &[u8]) -> io::Result<usize>
        ensures bound { WritesAtMost result buf.now }
        ensures bytes { WriteAppends (Self.contents self.old) (Self.contents self.new) result
            buf.now }
        ensures fails { IfErr result fails_with };
}

impl<W: Write> FallibleWrite for W {
    ghost fails_with = { λ e. Unit {0} };

    fn attempt_write(&mut self, buf: &[u8]) -> io::Result<usize> {
        self.write(buf)
    }
}

//! Calls that are made again after an error that passes.
ghost use Rattle.std.specs.Prelude.{◌≡◌};
ghost use Rattle.blocking_io.specs.Retries.{IsAfter};

use std::io;
use std::io::ErrorKind;
use std::marker::Model;

/// How often a call was made again. It is counted by `after` alone.
#[derive(Drop)]
pub struct Retries {
    count: u64,
}

impl Model for Retries {
    ghost use Rattle.std.specs.Prelude.{ℕ};

    ghost Value = { ℕ };

    ghost view = { λ r. r.count };
}

impl Retries {
    /// No call was made again yet.
    pub fn none() -> Retries
        ensures { result ≡ 0 }
    {
        Retries { count: 0 }
    }

    /// After an error of a call: where it passes, the call is to be made again, and that is counted. Any other error
    /// stays, and so does `TimedOut` where 2^64 - 1 were counted.
    pub fn after(&mut self, error: io::Error, passes: bool) -> io::Result<()>
        ensures { IsAfter self.old error passes result self.new }
    {
        if !passes {
            return Err(error);
        }
        if self.count == u64::MAX {
            return Err(ErrorKind::TimedOut.into());
        }
        self.count += 1;
        Ok(())
    }
}

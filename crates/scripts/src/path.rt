//! The path of a file.
ghost use Rattle.std.specs.Prelude.{◌≡◌, IfOk};

use std::alloc::{AllocError, Global};
use std::marker::Model;

/// The path of a file. A contract sees it as the list of its bytes, which are UTF-8.
#[derive(Debug, Drop)]
pub struct Path {
    string: String,
}

impl Model for Path {
    ghost use Rattle.std.specs.Prelude.{List, ℕ, string_bytes};

    ghost Value = { List ℕ };

    ghost view = { λ p. string_bytes p.string };
}

impl Path {
    /// A copy of a text. It fails where no memory is left.
    pub(crate) fn of(alloc: Global, text: &str) -> Result<Path, AllocError>
        ensures { IfOk result (λ path. path ≡ text.now) }
    {
        Ok(Path {
            string: String::from_str(alloc, text)?,
        })
    }

    /// The path, lent.
    pub fn as_str(&self) -> &str
        ensures { result.now ≡ self.now }
    {
        self.string.as_str()
    }
}

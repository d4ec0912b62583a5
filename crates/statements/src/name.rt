//! Names.
ghost use Rattle.std.specs.Prelude.{◌≡◌, List, ℕ, Option, Some, None, if◌then◌else◌};
ghost use Rattle.statements.specs.Spelling.{is_name};

use crate::spelling::is_name;
use std::marker::Model;

/// A name in a text. A contract sees its bytes.
#[derive(Drop)]
pub struct Name<'a> {
    text: &'a str,
}

impl<'a> Model for Name<'a> {
    ghost use Rattle.std.specs.Prelude.{List, ℕ};

    ghost Value = { List ℕ };

    ghost view = { λ n. n.text.now };
}

impl<'a> Name<'a> {
    /// The name of this text.
    pub(crate) fn new(text: &'a str) -> Name<'a>
        ensures { result ≡ text.now }
    {
        Name { text }
    }

    /// Its text.
    pub fn as_str(&self) -> &'a str
        ensures { result.now ≡ self.now }
    {
        self.text
    }
}

/// The text, if it is a name.
pub(crate) fn name_in(text: &[u8]) -> Option<Name<'_>>
    ensures { result ≡ (if is_name text.now then Some text.now else None) }
{
    if !is_name(text) {
        return None;
    }
    match str::from_utf8(text) {
        Ok(name) => Some(Name::new(name)),
        Err(_) => None,
    }
}

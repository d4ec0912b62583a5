//! The text of a logpoint.

ghost use Rattle.std.specs.Prelude.{◌≡◌, string_bytes};

use std::marker::Model;

/// The text of a logpoint. A contract sees it as the list of its bytes.
#[derive(Debug, Drop)]
pub struct LogText {
    string: String,
}

impl Model for LogText {
    ghost use Rattle.std.specs.Prelude.{List, ℕ, string_bytes};

    ghost Value = { List ℕ };

    ghost view = { λ t. string_bytes t.string };
}

impl LogText {
    /// The text that a `String` holds. It takes no memory.
    pub fn new(string: String) -> LogText
        ensures { result ≡ string_bytes string }
    {
        LogText { string }
    }

    /// The text, lent.
    pub fn as_str(&self) -> &str
        ensures { result.now ≡ self.now }
    {
        self.string.as_str()
    }
}

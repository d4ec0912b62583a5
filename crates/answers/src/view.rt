//! What an answer needs to know beside the machine.

use protocol::Text;

/// The program's source, and how the editor counts.
#[derive(Debug, Drop)]
pub struct View {
    /// The path of the program's source, as it was launched.
    pub path: Text,
    /// The number of the first line, 0 or 1.
    pub line_base: u32,
    /// The number of the first column, 0 or 1.
    pub column_base: u32,
}

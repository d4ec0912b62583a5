//! What a line table is asked, and the rows that one can have.

ghost use Rattle.std.specs.Prelude.{IsTrue};
ghost use Rattle.image.specs.Lines.{RowsRise};

use crate::{Fault, found, pair, parsed, shown};
use image::LineTable;
use std::alloc::Global;

/// What a line table answers.
///
/// - `line_of ADDRESS`: a line, or `none`.
/// - `address_of LINE`: an address, or `none`.
/// - `bind LINE`: a line and an address, or `none`.
/// - `starts ADDRESS`: `true` or `false`.
/// - `label_at ADDRESS`: a name and a number of bytes, or `none`.
/// - `label_address NAME`: an address, or `none`.
/// - `label PLACE`: the name and the address of the label at this place, or `none`.
/// - `label_count`: how many labels there are.
pub fn ask_lines(alloc: Global, table: &LineTable, arguments: &[&str]) -> Result<String, Fault> {
    match arguments {
        ["line_of", address] => found(alloc, table.line_of(parsed(address)?)),
        ["address_of", line] => found(alloc, table.address_of(parsed(line)?)),
        ["bind", line] => pair(alloc, table.bind(parsed(line)?)),
        ["starts", address] => shown(alloc, table.starts(parsed(address)?)),
        ["label_at", address] => pair(alloc, table.label_at(parsed(address)?)),
        ["label_address", name] => found(alloc, table.label_address(name)),
        ["label", index] => pair(alloc, table.label(parsed(index)?)),
        ["label_count"] => shown(alloc, table.label_count()),
        _ => Err(Fault::NoCommand),
    }
}

/// Whether rows rise as those of a line table have to.
pub fn rise(rows: &[(u32, u32, u32)], end: u32) -> bool
    ensures { IsTrue result → RowsRise rows.now end }
{
    let mut line = 0;
    let mut address = 65536;
    for row in rows {
        if u64::from(row.0) < line || u64::from(row.1) < address || row.1 % 4 != 0 || row.2 == 0 {
            return false;
        }
        line = u64::from(row.0) + 1;
        address = u64::from(row.1) + 4 * u64::from(row.2);
    }
    address <= u64::from(end)
}

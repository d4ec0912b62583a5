//! Which source line the code at an address came from, and where the labels are.

ghost use Rattle.std.specs.Prelude.{
  ◌≡◌,
  ◌↔◌,
  ◌+◌,
  ◌<◌,
  nat_le,
  nat_lt,
  find,
  length,
  slice_get,
  slice_index,
  option_map,
  option_and_then,
  IfOk,
  IfSome,
  IsTrue,
  [],
};
ghost use Rattle.indexmap.specs.IndexMap.{index_map_len, values};
ghost use Rattle.image.specs.Lines.{
  address_of,
  bind,
  end_of,
  first_greatest,
  label_address,
  label_at,
  labels_of,
  line_in,
  line_of,
  starts,
  up_to,
  RowsRise,
};
ghost use Rattle.image.specs.Private.Orders.{NeverFall};

use crate::FIRST_ADDRESS;
use indexmap::IndexMap;
use std::alloc::{AllocError, Global};
use std::marker::Model;

/// Whether the addresses of labels ever fall in the order of the text.
#[derive(Clone, Copy, Debug, PartialEq, Eq)]
enum LabelOrder {
    Rising,
    Mixed,
}

/// Which source line the code at an address came from, and where the labels are. A contract sees
/// rows of a line, the address of its first instruction and how many words it has; labels, in the order
/// of the text; and the address after the image's last byte.
#[derive(Debug, Drop)]
pub struct LineTable {
    rows: Vec<(u32, u32, u32)>,
    labels: IndexMap<String, u32>,
    end: u32,
    order: LabelOrder,
}

impl Model for LineTable {
    ghost use Rattle.image.specs.Lines.{Table, labels_of};
    ghost use Rattle.image.specs.Private.Orders.{IsKept};

    ghost Value = { Table };

    ghost view = { λ t. record {
      rows = t.rows.items;
      labels = labels_of t.labels.entries;
      end = t.end;
    } };

    ghost invariant = { λ t. IsKept t.rows.items t.labels.entries t.end t.order };
}

impl LineTable {
    /// The table of rows and labels, without taking memory. Each row is a line that has code, the
    /// address of its first instruction and how many words it has; `labels` are names and their
    /// addresses, in the order of the text; `end` is the address after the image's last byte.
    pub fn new(rows: Vec<(u32, u32, u32)>, labels: IndexMap<String, u32>, end: u32) -> LineTable
        requires { RowsRise rows.items end }
        ensures { result ≡ record {
          rows = rows.items;
          labels = labels_of labels.entries;
          end = end;
        } }
    {
        let order = order_of(&labels);
        LineTable {
            rows,
            labels,
            end,
            order,
        }
    }

    /// A table of the same rows without labels. `Err`: no memory was left.
    pub fn without_labels(&self, alloc: Global) -> Result<LineTable, AllocError>
        ensures { IfOk result (λ table. table ≡ record self.now { labels = [] }) }
    {
        let rows = self.rows.clone()?;
        Ok(LineTable::new(rows, IndexMap::new(alloc), self.end))
    }

    /// The line whose code an address lies in; `None`: it lies in no line's code.
    pub fn line_of(&self, addr: u32) -> Option<u32>
        ensures line { result ≡ line_of self.now addr }
        ensures rise { RowsRise self.now.rows self.now.end }
    {
        let row = self.row_ending_after(addr)?;
        if row.1 <= addr { Some(row.0) } else { None }
    }

    /// The address of a line's first instruction; `None`: the line has no code.
    pub fn address_of(&self, line: u32) -> Option<u32>
        ensures address { result ≡ address_of self.now line }
        ensures rise { RowsRise self.now.rows self.now.end }
    {
        let row = self.row_from(line)?;
        if row.0 == line { Some(row.1) } else { None }
    }

    /// The first line from this one on that has code, and the address of its first instruction;
    /// `None`: no line from this one on has any.
    pub fn bind(&self, line: u32) -> Option<(u32, u32)>
        ensures line { result ≡ bind self.now line }
        ensures rise { RowsRise self.now.rows self.now.end }
    {
        let row = self.row_from(line)?;
        Some((row.0, row.1))
    }

    /// Whether a line's code starts at exactly this address.
    pub fn starts(&self, addr: u32) -> bool
        ensures { result ≡ starts self.now addr }
    {
        match self.row_ending_after(addr) {
            Some(row) => row.1 == addr,
            None => false,
        }
    }

    /// The label that an address goes by, and how many bytes above it the address is: the label of
    /// the greatest address that is not above, the first in the text where several have that. `None`:
    /// the address is below 0x00010000 or not below the image's end, or no label is at or below it.
    pub fn label_at(&self, addr: u32) -> Option<(&str, u32)>
        ensures { option_map (λ found. (found.0.now, found.1)) result ≡ label_at self.now addr }
    {
        if addr < FIRST_ADDRESS || addr >= self.end {
            return None;
        }
        let index = self.nearest_label(addr)?;
        let (name, address) = self.labels.get_index(index)?;
        Some((name.as_str(), addr - *address))
    }

    /// The address of the label of a name; `None`: no label has it.
    pub fn label_address(&self, name: &str) -> Option<u32>
        ensures { result ≡ label_address self.now name.now }
    {
        match self.labels.get(name) {
            Some(address) => Some(*address),
            None => None,
        }
    }

    /// How many labels there are.
    pub fn label_count(&self) -> usize
        ensures { result ≡ length self.now.labels }
    {
        self.labels.len()
    }

    /// The name and the address of a label, by its place in the order of the text, counted from 0; `None`: there are no more
    /// than that many labels.
    pub fn label(&self, index: usize) -> Option<(&str, u32)>
        ensures { option_map (λ label. (label.0.now, label.1)) result
            ≡ slice_get self.now.labels index }
    {
        let (name, address) = self.labels.get_index(index)?;
        Some((name.as_str(), *address))
    }

    /// The first row that ends after an address.
    fn row_ending_after(&self, addr: u32) -> Option<(u32, u32, u32)>
        ensures row { result ≡ find (λ row. nat_lt addr (end_of row)) self.now.rows }
        ensures rise { RowsRise self.now.rows self.now.end }
    {
        let rows = self.rows.as_slice();
        let index = rows.partition_point(
            |row: &(u32, u32, u32)| -> bool
                ensures { result ≡ nat_le (end_of row.now) addr }
            { u64::from(row.1) + 4 * u64::from(row.2) <= u64::from(addr) },
        );
        if index < rows.len() {
            Some(rows[index])
        } else {
            None
        }
    }

    /// The first row of this line or a later one.
    fn row_from(&self, line: u32) -> Option<(u32, u32, u32)>
        ensures row { result ≡ find (λ row. nat_le line (line_in row)) self.now.rows }
        ensures rise { RowsRise self.now.rows self.now.end }
    {
        let rows = self.rows.as_slice();
        let index = rows.partition_point(
            |row: &(u32, u32, u32)| -> bool
                ensures { result ≡ nat_lt (line_in row.now) line }
            { row.0 < line },
        );
        if index < rows.len() {
            Some(rows[index])
        } else {
            None
        }
    }

    /// The index of the first label that has the greatest address not above this one.
    fn nearest_label(&self, addr: u32) -> Option<usize>
        ensures { option_and_then (slice_get self.now.labels) result
            ≡ first_greatest (up_to addr self.now.labels) }
    {
        match self.order {
            LabelOrder::Rising => nearest_by_halving(&self.labels, addr),
            LabelOrder::Mixed => nearest_by_looking(&self.labels, addr),
        }
    }
}

/// The address of the label at an index.
fn address_at(labels: &IndexMap<String, u32>, index: usize) -> u32
    requires { index < index_map_len labels.now }
    ensures { result ≡ slice_index (values labels.now) index }
{
    match labels.get_index(index) {
        Some((_, address)) => *address,
        None => unreachable!(),
    }
}

/// Whether the labels' addresses ever fall.
fn order_of(labels: &IndexMap<String, u32>) -> LabelOrder
    ensures { (result ≡ LabelOrder.Rising) ↔ NeverFall (values labels.now) }
{
    for index in 1..labels.len() {
        if address_at(labels, index) < address_at(labels, index - 1) {
            return LabelOrder::Mixed;
        }
    }
    LabelOrder::Rising
}

/// The index of the first label that has the greatest address not above this one, where the labels'
/// addresses never fall.
fn nearest_by_halving(labels: &IndexMap<String, u32>, addr: u32) -> Option<usize>
    requires { NeverFall (values labels.now) }
    ensures { option_and_then (slice_get (labels_of labels.now.entries)) result
        ≡ first_greatest (up_to addr (labels_of labels.now.entries)) }
{
    let count = labels.partition_point(
        |_name: &String, address: &u32| -> bool
            ensures { result ≡ nat_le address.now addr }
        { *address <= addr },
    );
    if count == 0 {
        return None;
    }
    let greatest = address_at(labels, count - 1);
    let index = labels.partition_point(
        |_name: &String, address: &u32| -> bool
            ensures { result ≡ nat_lt address.now greatest }
        { *address < greatest },
    );
    Some(index)
}

/// Whether an address is greater than that of the label found so far, if there is one.
fn is_greater(found: Option<(usize, u32)>, address: u32) -> bool
    ensures { IsTrue result ↔ IfSome found (λ label. label.1 < address) }
{
    match found {
        Some((_, greatest)) => greatest < address,
        None => true,
    }
}

/// The index of the first label that has the greatest address not above this one.
fn nearest_by_looking(labels: &IndexMap<String, u32>, addr: u32) -> Option<usize>
    ensures { option_and_then (slice_get (labels_of labels.now.entries)) result
        ≡ first_greatest (up_to addr (labels_of labels.now.entries)) }
{
    let mut found: Option<(usize, u32)> = None;
    for index in 0..labels.len() {
        let address = address_at(labels, index);
        if address <= addr && is_greater(found, address) {
            found = Some((index, address));
        }
    }
    match found {
        Some((index, _)) => Some(index),
        None => None,
    }
}

//! Tables of monitors by two numbers, such as an event and a place of it.

ghost use Rattle.std.specs.Prelude.{◌≡◌, ◌<◌, ◌==◌, ◌&&◌, [], length, slice_index_or, IfOk, OnOk};
ghost use Rattle.khe_instance.specs.Listing.{IsAddedAt, list_at};

use crate::listing::push_at;
use khe_base::{NoMemory, Seq};
use std::marker::Model;

/// Lists of the numbers of monitors by two numbers, a row and a column. Contracts see the rows, each a
/// list of lists.
#[derive(Drop)]
pub struct MonitorTable {
    pub(crate) rows: Seq<Seq<Seq<u32>>>,
}

impl Model for MonitorTable {
    ghost use Rattle.std.specs.Prelude.{List, ℕ};

    ghost Value = { List (List (List ℕ)) };

    ghost view = { λ t. t.rows };
}

impl MonitorTable {
    /// The monitors in a row and a column, ascending, and none beyond the last. It takes constant time.
    pub fn monitors(&self, row: u32, column: u32) -> &[u32]
        ensures { result.now ≡ list_at self.now row column }
    {
        match self.rows.as_slice().get(row as usize) {
            Some(lists) => list_in(lists.as_slice(), column),
            None => &[],
        }
    }

    /// Adds a monitor to the list in a row and a column, in constant time on average.
    pub(crate) fn push(&mut self, row: u32, column: u32, monitor: u32) -> Result<(), NoMemory>
        requires row { row < length self.old }
        requires column { column < length (slice_index_or self.old row []) }
        ensures { OnOk result (IsAddedAt (λ a b. (row == a) && (column == b)) monitor self.old self.new) }
    {
        push_in(&mut self.rows, row, column, monitor)
    }
}

/// One of some lists, and none beyond the last.
fn list_in(lists: &[Seq<u32>], column: u32) -> &[u32]
    ensures { result.now ≡ slice_index_or lists.now column [] }
{
    match lists.get(column as usize) {
        Some(list) => list.as_slice(),
        None => &[],
    }
}

/// Adds a monitor to a list in a row.
fn push_in(
    rows: &mut Seq<Seq<Seq<u32>>>,
    row: u32,
    column: u32,
    monitor: u32,
) -> Result<(), NoMemory>
    requires row { row < length rows.old }
    requires column { column < length (slice_index_or rows.old row []) }
    ensures { OnOk result (IsAddedAt (λ a b. (row == a) && (column == b)) monitor rows.old rows.new) }
{
    push_at(&mut rows.items[row as usize], column, monitor)
}

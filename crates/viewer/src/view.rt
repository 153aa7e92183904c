// The viewer, and thin: the work is that of `find_row` and `find_part`.
ghost use Rattle.std.specs.Prelude.{◌≡◌};
ghost use Rattle.viewer.specs.Contract.{row_seen, part_seen};

use crate::part::find_part;
use crate::row::find_row;
use table::row::Row;

// 01, Reading: "A viewer for the host holds the lent table of one read text and a place"
#[derive(Clone, Copy)]
pub struct Viewer<'a> {
    pub table: &'a [u8],
    pub place: usize,
}

impl<'a> Viewer<'a> {
    pub fn new(table: &'a [u8], place: usize) -> Viewer<'a>
        ensures { (result.table ≡ table.entry) × (result.place ≡ place) }
    {
        Viewer { table, place }
    }

    // The row at the viewer's place.
    pub fn row(self) -> Option<Row>
        ensures { result ≡ row_seen self.entry.table.now self.entry.place }
    {
        find_row(self.table, self.place)
    }

    // The place of the nth item or member's content, from 0.
    pub fn part(self, nth: usize) -> Option<usize>
        ensures { result ≡ part_seen self.entry.table.now self.entry.place nth }
    {
        find_part(self.table, self.place, nth)
    }
}

// For callers that hold no viewer: what one at a place of a table tells.
pub fn row_at(table: &[u8], place: usize) -> Option<Row>
    ensures { result ≡ row_seen table.now place }
{
    Viewer::new(table, place).row()
}

pub fn part_at(table: &[u8], place: usize, nth: usize) -> Option<usize>
    ensures { result ≡ part_seen table.now place nth }
{
    Viewer::new(table, place).part(nth)
}

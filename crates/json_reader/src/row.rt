// Rows of the table.
ghost use Rattle.json_reader.specs.Inner.{RowRoom, Stored, Emptied, Filled, label_of};
ghost use Rattle.std.specs.Prelude.{◌<◌};
ghost use Rattle.model.specs.Limits.{max_text_bytes};
ghost use Rattle.syntax.specs.Layout as layout;

use crate::step::{Cursor, place};
use area::put_word;
use syntax::ROW_BYTES;

// Where a member's name lies in the strings area; 0 and 0 for a value that is no member.
#[derive(Clone, Copy)]
pub struct Label {
    pub start: usize,
    pub size: usize,
}

// A row of the table: its kind, its name, and two numbers by the kind.
pub fn put_row(table: &mut [u8], row: usize, kind: usize, name: Label, a: usize, b: usize)
    requires { RowRoom table.old row kind name.size }
    ensures { Stored table.old row (layout.row kind (label_of name) a b) table.new }
{
    let at = row * ROW_BYTES;
    put_word(table, at, kind + 256 * name.size);
    put_word(table, at + 4, name.start);
    put_word(table, at + 8, a);
    put_word(table, at + 12, b);
}

// The row of an empty array or object, whose closing byte is at `at`.
pub fn empty(
    table: &mut [u8],
    row: usize,
    kind: usize,
    name: Label,
    at: usize,
    used: usize,
) -> Cursor
    requires { RowRoom table.old row kind name.size × (at < max_text_bytes) }
    ensures { Emptied table.old row kind name at used result table.new }
{
    put_row(table, row, kind, name, 0, row + 1);
    place(at + 1, row + 1, used)
}

// The row of an array or object whose items or members were read up to `end`.
pub fn filled(table: &mut [u8], row: usize, kind: usize, name: Label, end: Cursor) -> Cursor
    requires { RowRoom table.old row kind name.size }
    ensures { Filled table.old row kind name end result table.new }
{
    put_row(table, row, kind, name, end.count, end.row);
    place(end.at, end.row, end.used)
}

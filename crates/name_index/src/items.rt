// The index of the items of an array: the entry of an item's row holds the row of the item twice as far from the first.
ghost use Rattle.std.specs.Prelude.{false, ◌≡◌};
ghost use Rattle.name_index.specs.Items.{has_entry, double_at, put_double, link_from, is_array, has_index, link_node, link_rows, link_items, item_row};
ghost use Rattle.table.specs.Node.{node_at};

use crate::entry_at;
use area::{get_word, put_word};
use model::MAX_VALUES;
use syntax::{ARRAY_ROW, ROW_BYTES, TABLE_BYTES};
use table::node::{Node, Rows, next_row, node_at};

// An array of at most so many items has no index.
const FEW: usize = 24;

// A table has an entry for each row but row 0.
#[tactic(auto, unfolding(model::specs::Limits::max_values, syntax::specs::Layout::row_bytes, syntax::specs::Layout::entry_bytes))]
fn has_entry(table: &[u8], row: usize) -> bool
    ensures { result ≡ has_entry table.now row }
{
    TABLE_BYTES <= table.len() && 0 < row && row <= MAX_VALUES
}

// The row of the item twice as far as the one in a row; 0, and no `None`, where there is no entry: it stands for no item, and a search goes on from it (must-fail: no_entry_gives_the_row).
fn double_at(table: &[u8], row: usize) -> usize
    ensures { result ≡ double_at table.now row }
{
    if !has_entry(table, row) {
        return 0;
    }
    get_word(table, entry_at(row - 1))
}

fn put_double(table: &mut [u8], row: usize, far: usize)
    ensures { table.new ≡ put_double table.old row far }
{
    if has_entry(table, row) {
        put_word(table, entry_at(row - 1), far);
    }
}

// Enters the items of an array.
fn link(table: &mut [u8], q: Rows)
    ensures { table.new ≡ link_from table.old q.first q.first q.count }
{
    let mut row = q.first;
    let mut far = q.first;
    for _ in 0..q.count / 2 + q.count % 2 {
        put_double(table, row, far);
        row = next_row(table, row);
        let odd = next_row(table, far);
        far = next_row(table, odd);
    }
}

// Whether the array in a row has an index: one of many items, some of which have parts.
#[tactic(auto, using(crate::proofs::Doubles::index_few, crate::proofs::Doubles::index_before, crate::proofs::Doubles::index_after))]
pub fn has_index(table: &[u8], row: usize, q: Rows) -> bool
    ensures { result ≡ has_index table.now row q }
{
    q.count > FEW && next_row(table, row).checked_sub(q.first) != Some(q.count)
}

// Whether an array stands in a row.
fn is_array(table: &[u8], row: usize) -> bool
    ensures { result ≡ false → is_array (node_at table.now row) ≡ 0 }
{
    row < table.len() / ROW_BYTES && get_word(table, row * ROW_BYTES) % 256 == ARRAY_ROW
}

// Enters the items of an array in a row, if it is to have an index.
#[tactic(auto, using(crate::proofs::Doubles::no_array, crate::proofs::Doubles::array_linked, crate::proofs::Doubles::array_left))]
fn link_row(table: &mut [u8], row: usize)
    ensures { table.new ≡ link_node table.old row (node_at table.old row) }
{
    if !is_array(table, row) {
        return;
    }
    if let Node::Array(q) = node_at(table, row) {
        if has_index(table, row, q) {
            link(table, q);
        }
    }
}

// Enters the items of the arrays in the first `rows` rows that are to have an index.
fn link_rows(table: &mut [u8], rows: usize)
    ensures { table.new ≡ link_rows table.old 0 rows }
{
    for row in 0..rows {
        link_row(table, row);
    }
}

// The same for a whole text of so many values. In the rows of few values there is no array that is to have one.
pub fn link_items(table: &mut [u8], rows: usize)
    ensures { table.new ≡ link_items table.old rows }
{
    if rows > FEW + 2 {
        link_rows(table, rows);
    }
}

// The row of the item so many after the first, in an array that has an index. The loop goes by the digit itself, which is compared and taken off.
pub fn item_row(table: &[u8], first: usize, at: usize) -> usize
    ensures { result ≡ item_row table.now first at }
{
    let mut row = first;
    let mut rest = at;
    let mut digit = MAX_VALUES / 2;
    while digit > 0 {
        row = double_at(table, row);
        if digit <= rest {
            row = next_row(table, row);
            rest -= digit;
        }
        digit /= 2;
    }
    row
}

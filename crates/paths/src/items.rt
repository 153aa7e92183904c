// The item of an array at an index.
ghost use Rattle.std.specs.Prelude.{true, ◌≡◌, ◌<◌};
ghost use Rattle.paths.specs.Contract.{item_in};
ghost use Rattle.paths.specs.Inner.{Flat};

use crate::owner::are_items;
use name_index::text::IndexedText;
use table::node::{Node, Rows, next_row, node_at};

// An item before this one is found sooner row by row.
const FEW: usize = 4;

// The item so many after the first, row by row.
#[tactic(auto, using(crate::proofs::Rows::item_there, crate::proofs::Rows::after_more, crate::proofs::Rows::after_none))]
fn item_among(at: usize, table: &[u8], q: Rows) -> Node
    requires { at < q.count }
    ensures { result ≡ item_in table.now q.first q.count at }
{
    let mut row = q.first;
    for _ in 0..at {
        row = next_row(table, row);
    }
    node_at(table, row)
}

// Whether some rows are all items of an array, and each item is one row.
fn are_flat(text: IndexedText, q: Rows) -> bool
    ensures { result ≡ true → Flat text.entry.table.now q }
{
    are_items(text.table, q) && next_row(text.table, q.first - 1) - q.first == q.count
}

// The item so many after the first.
#[tactic(auto, using(crate::proofs::Rows::flat_past, crate::proofs::Rows::flat_item, model::proofs::Laws::Widths::values_below))]
pub fn item(at: usize, text: IndexedText, q: Rows) -> Node
    ensures { result ≡ item_in text.entry.table.now q.first q.count at }
{
    if at >= q.count {
        return Node::Null;
    }
    if at < FEW || !are_flat(text, q) {
        return item_among(at, text.table, q);
    }
    node_at(text.table, q.first + at)
}

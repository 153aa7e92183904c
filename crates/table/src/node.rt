// The value in a row.
ghost use Rattle.std.specs.Prelude.{◌≡◌};
ghost use Rattle.table.specs.Contract.{node_at, next_row, name_at, tail_of, Halves};
ghost use Rattle.table.specs.Node.{node_of};

use crate::row::{Row, Span, join, row_at};
use area::get_word;
use syntax::{ARRAY_ROW, FALSE_ROW, INTEGER_ROW, OBJECT_ROW, ROW_BYTES, STRING_ROW, TRUE_ROW};

// So many values, one after the other, from a row on.
#[derive(Clone, Copy)]
pub struct Rows {
    pub first: usize,
    pub count: usize,
}

// A value of a read text: a scalar itself, or where the bytes of a string or the parts of an array or object lie.
#[derive(Clone, Copy)]
pub enum Node {
    Null,
    False,
    True,
    // The integer plus 2^53.
    Integer(u64),
    String(Span),
    Array(Rows),
    Object(Rows),
}

// By a row's numbers, and the row after it, where its parts begin.
fn node_of(r: Row, next: usize) -> Node
    requires { Halves r }
    ensures { result ≡ node_of r next }
{
    let count = r.first;
    match r.kind {
        FALSE_ROW => Node::False,
        TRUE_ROW => Node::True,
        INTEGER_ROW => Node::Integer(join(r)),
        STRING_ROW => Node::String(Span {
            start: r.first,
            size: r.second,
        }),
        ARRAY_ROW => Node::Array(Rows { first: next, count }),
        OBJECT_ROW => Node::Object(Rows { first: next, count }),
        _ => Node::Null,
    }
}

// The value in a row; null where the table has no such row.
#[tactic(auto, unfolding(crate::specs::Node::node_at, syntax::specs::Layout::row_bytes))]
pub fn node_at(table: &[u8], row: usize) -> Node
    ensures { result ≡ node_at table.now row }
{
    if row >= table.len() / ROW_BYTES {
        return Node::Null;
    }
    node_of(row_at(table, row), row + 1)
}

// The row after a value and all that it holds; the row itself where the table has no such row.
#[tactic(auto, unfolding(crate::specs::Node::next_row, crate::specs::Row::row_at, syntax::specs::Layout::row_bytes))]
pub fn next_row(table: &[u8], row: usize) -> usize
    ensures { result ≡ next_row table.now row }
{
    if row >= table.len() / ROW_BYTES {
        return row;
    }
    // The last number is read only where it is the answer, so that a walk over scalars waits for no second load.
    let at = row * ROW_BYTES;
    let kind = get_word(table, at) % 256;
    if kind < ARRAY_ROW {
        row + 1
    } else {
        get_word(table, at + 12)
    }
}

// Where the name of the member in a row lies.
pub fn name_at(table: &[u8], row: usize) -> Span
    ensures { result ≡ name_at table.now row }
{
    row_at(table, row).name
}

// The values after the first.
pub fn tail(table: &[u8], q: Rows) -> Rows
    ensures { result ≡ tail_of table.now q }
{
    Rows {
        first: next_row(table, q.first),
        count: q.count.saturating_sub(1),
    }
}

// A row of a table as its numbers.
ghost use Rattle.std.specs.Prelude.{◌≡◌, ◌<◌};
ghost use Rattle.table.specs.Contract.{row_at, Halves, joined};

use area::get_word;
use syntax::ROW_BYTES;

// A part of a strings area.
#[derive(Clone, Copy, Default)]
pub struct Span {
    pub start: usize,
    pub size: usize,
}

// The kind; where the member's name lies, in a read table 0 and 0 of no member; and two numbers by the kind.
#[derive(Clone, Copy, Default)]
pub struct Row {
    pub kind: usize,
    pub name: Span,
    pub first: usize,
    pub second: usize,
}

// The numbers of a row; zeros where the table has no such row.
#[tactic(auto, unfolding(crate::specs::Row::row_at, syntax::specs::Layout::row_bytes))]
pub fn row_at(table: &[u8], row: usize) -> Row
    ensures { (result ≡ row_at table.now row) × Halves result }
{
    if row >= table.len() / ROW_BYTES {
        return Row::default();
    }
    let at = row * ROW_BYTES;
    let word = get_word(table, at);
    Row {
        kind: word % 256,
        name: Span {
            start: get_word(table, at + 4),
            size: word / 256,
        },
        first: get_word(table, at + 8),
        second: get_word(table, at + 12),
    }
}

// The number of 64 bits whose halves are a row's last two numbers.
pub fn join(r: Row) -> u64
    requires { joined r < 18446744073709551616 }
    ensures { result ≡ joined r }
{
    r.first as u64 + r.second as u64 * 4294967296
}

// The rows of a table: how many there are, and whether their numbers have the form of docs/LAYOUT.md.
ghost use Rattle.std.specs.Prelude.{◌≡◌};
ghost use Rattle.viewer.specs.Contract.{integer_in, count_of, row_seen};
ghost use Rattle.viewer.specs.Form.{is_within, is_integer, is_span, has_content, has_form};
ghost use Rattle.table.specs.Row.{Halves};
ghost use Rattle.viewer.specs.Row.{row_count};

use model::MAX_VALUES;
use syntax::{
    ARRAY_ROW, BIAS, INTEGER_ROW, NULL_ROW, OBJECT_ROW, ROW_BYTES, STRING_ROW, STRINGS_BYTES,
    TRUE_ROW,
};
use table::row::{Row, join, row_at};

// No integer is as large, with 2^53 added.
const TOO_LARGE: usize = 2 * BIAS as usize;

// How many rows a table has: as many as fit, and no more than a text has values.
#[tactic(auto, unfolding(model::specs::Limits::max_values, syntax::specs::Layout::row_bytes))]
fn row_count(table: &[u8]) -> usize
    ensures { result ≡ row_count table.now }
{
    (table.len() / ROW_BYTES).min(MAX_VALUES)
}

// So many bytes from a start lie within a strings area.
#[tactic(auto, unfolding(model::specs::Limits::max_text_bytes))]
fn is_within(start: usize, size: usize) -> bool
    ensures { result ≡ is_within start size }
{
    start <= STRINGS_BYTES && size <= STRINGS_BYTES - start
}

// An integer within the limits, to which 2^53 was added.
#[tactic(auto, unfolding(model::specs::Limits::max_integer))]
fn is_integer(n: u64) -> bool
    ensures { result ≡ is_integer n }
{
    0 < n && n < 2 * BIAS
}

// A container at a place of so many rows, with so many parts, that ends before a row.
fn is_span(rows: usize, place: usize, count: usize, end: usize) -> bool
    ensures { result ≡ is_span rows place count end }
{
    if end <= place || rows < end {
        return false;
    }
    let others = end - place - 1;
    if count == 0 {
        others == 0
    } else {
        count <= others
    }
}

// The last two numbers are as the kind wants them.
fn has_content(rows: usize, place: usize, r: Row) -> bool
    requires { Halves r }
    ensures { result ≡ has_content rows place r }
{
    match r.kind {
        NULL_ROW..=TRUE_ROW => r.first == 0 && r.second == 0,
        INTEGER_ROW => is_integer(join(r)),
        STRING_ROW => is_within(r.first, r.second),
        ARRAY_ROW..=OBJECT_ROW => is_span(rows, place, r.first, r.second),
        _ => false,
    }
}

// A row at a place of so many rows has the form.
fn has_form(rows: usize, place: usize, r: Row) -> bool
    requires { Halves r }
    ensures { result ≡ has_form rows place r }
{
    is_within(r.name.start, r.name.size) && has_content(rows, place, r)
}

// The row at a place.
pub fn find_row(table: &[u8], place: usize) -> Option<Row>
    ensures { result ≡ row_seen table.now place }
{
    let rows = row_count(table);
    if rows <= place {
        return None;
    }
    let r = row_at(table, place);
    if has_form(rows, place, r) {
        Some(r)
    } else {
        None
    }
}

// How many items or members a row's value has; 0 of a scalar.
pub fn count_of(r: Row) -> usize
    ensures { result ≡ count_of r }
{
    if r.kind < ARRAY_ROW { 0 } else { r.first }
}

// The integer in a row of an integer; 0 where the row's numbers are none's.
pub fn integer_of(r: Row) -> i64
    ensures { result ≡ integer_in r }
{
    if r.first >= TOO_LARGE || r.second >= TOO_LARGE / 4294967296 {
        return 0;
    }
    let n = join(r);
    if is_integer(n) {
        n as i64 - BIAS as i64
    } else {
        0
    }
}

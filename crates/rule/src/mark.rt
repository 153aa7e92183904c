// Marks: what the shape check found each object of a rule's table to be, a byte for each row. They lie behind the rows.
ghost use Rattle.std.specs.Prelude.{◌≡◌};
ghost use Rattle.syntax.specs.Layout.{rows_part};
ghost use Rattle.rule.specs.Mark.{mark_at, with_mark, op_mark, view_mark};

use crate::view::View;
use keywords::Op;
use model::{Domain, MAX_VALUES};
use syntax::ROW_BYTES;
use table::string::part_of;

// Where the marks begin: where the rows end.
const MARKS: usize = MAX_VALUES * ROW_BYTES;

// The rows of a table, without what lies behind them.
#[tactic(auto, unfolding(model::specs::Limits::max_values, syntax::specs::Layout::row_bytes, syntax::specs::Layout::rows_part))]
pub fn rows_of(table: &[u8]) -> &[u8]
    ensures { result.now ≡ rows_part table.now }
{
    part_of(table, 0, MARKS)
}

// ---- numbers
fn op_mark(op: Op) -> u8
    ensures { result ≡ op_mark op }
{
    match op {
        Op::Array => 0,
        Op::Equal => 5,
        Op::MemberOf => 6,
        Op::Plus => 7,
        Op::Not => 8,
        Op::DateOfBirth => 9,
        Op::Compare {
            domain: Domain::OnIntegers,
            comparison,
        } => 10 + comparison as u8,
        Op::Compare {
            domain: Domain::OnInstants,
            comparison,
        } => 14 + comparison as u8,
        Op::PlusTime { unit, .. } => 18 + unit as u8,
        Op::ExtractFromUvci(_) => 22,
    }
}

// The mark of an object with this view. The marks are numbers: they are bytes of the table that the host lends.
pub fn mark_of(view: View) -> u8
    ensures { result ≡ view_mark view }
{
    match view {
        View::Literal(_) => 0,
        View::Var(_) => 1,
        View::If(_) => 2,
        View::And(_) => 3,
        View::Reduce(_) => 4,
        View::Apply(op, _) => op_mark(op),
    }
}

// ---- bytes
// A table with a mark of a row; as it was where it ends before.
#[tactic(auto, unfolding(model::specs::Limits::max_values, syntax::specs::Layout::row_bytes))]
pub fn put_mark(table: &mut [u8], row: usize, mark: u8)
    ensures { table.new ≡ with_mark table.old row mark }
{
    if row < table.len().saturating_sub(MARKS) {
        table[MARKS + row] = mark;
    }
}

// The mark of a row; 0 where the table ends before.
#[tactic(auto, unfolding(model::specs::Limits::max_values, syntax::specs::Layout::row_bytes))]
pub fn mark_at(table: &[u8], row: usize) -> u8
    ensures { result ≡ mark_at table.now row }
{
    if table.len().saturating_sub(MARKS) <= row {
        return 0;
    }
    let at = MARKS + row;
    table[at]
}

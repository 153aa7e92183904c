// The shape check over a read table: row by row, with a mark for each object that is an operation.
#![tactic(auto)]

ghost use Rattle.std.specs.Prelude.{◌≡◌};
ghost use Rattle.shape.specs.Rows.{view_is_rule};
ghost use Rattle.shape.specs.Contract.{Checks};
ghost use Rattle.shape.specs.Inner.{ObjectChecked, RowChecked};

use octets::path::is_path;
use rule::mark::{mark_of, put_mark, rows_of};
use rule::operation::operation;
use rule::view::View;
use table::node::{Node, Rows, next_row, node_at};
use table::string::bytes_of;

// Whether the path of a `var` is one; any other view is a rule's.
fn view_is_rule(rule_strings: &[u8], view: View) -> bool
    ensures { result ≡ view_is_rule rule_strings.now view }
{
    match view {
        View::Var(p) => is_path(bytes_of(rule_strings, p)),
        _ => true,
    }
}

// Whether the object in a row is an operation, which is then marked, and its path one.
fn object_is_rule(rule_table: &mut [u8], rule_strings: &[u8], row: usize, q: Rows) -> bool
    ensures { ObjectChecked rule_table.old rule_strings.now row q result rule_table.new }
{
    let Some(view) = operation(rows_of(rule_table), rule_strings, q) else {
        return false;
    };
    put_mark(rule_table, row, mark_of(view));
    view_is_rule(rule_strings, view)
}

// Whether a row may stand in a rule, whatever stands in the others.
fn row_is_rule(rule_table: &mut [u8], rule_strings: &[u8], row: usize) -> bool
    ensures { RowChecked rule_table.old rule_strings.now row result rule_table.new }
{
    let node = node_at(rows_of(rule_table), row);
    match node {
        Node::Null => false,
        Node::Object(q) => object_is_rule(rule_table, rule_strings, row, q),
        _ => true,
    }
}

// Whether the text that was read into the table and the strings is a rule; 6 where it is not.
pub fn is_rule(rule_table: &mut [u8], rule_strings: &[u8]) -> bool
    ensures { Checks rule_table.old rule_strings.now result rule_table.new }
{
    let end = next_row(rows_of(rule_table), 0);
    for row in 0..end {
        if !row_is_rule(rule_table, rule_strings, row) {
            return false;
        }
    }
    true
}

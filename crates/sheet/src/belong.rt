// Whether a value belongs to one of some types.
ghost use Rattle.std.specs.Fn.{AnyResult};
ghost use Rattle.std.specs.Prelude.{Bool, ◌≡◌};
ghost use Rattle.sheet.specs.ByRows.{is_integer, is_string, every_item, array_belongs, string_belongs};
ghost use Rattle.sheet.specs.Contract.{Belongs};
ghost use Rattle.table.specs.declared.node.Node.{Node};

use table::node::{Node, Rows, node_at, tail};
use table::string::bytes_of;
use text_types::{is_date, is_day};
use type_set::set::TypeSet;

// "integers, strings (arrays of nothing else)": all items pass the test.
fn every_item<F: Fn(Node) -> bool>(record_table: &[u8], q: Rows, test: F) -> bool
    requires { F.IsAlwaysCallable test }
    ensures { (is : Node → Bool) → ((n : Node) → AnyResult F.Fn test (n, tt) (λ r. r ≡ is n)) → result ≡ every_item is record_table.now q }
{
    let mut rest = q;
    while rest.count > 0 {
        if !test(node_at(record_table, rest.first)) {
            return false;
        }
        rest = tail(record_table, rest);
    }
    true
}

// A string. A day is a date.
fn string_belongs(s: TypeSet, text: &[u8]) -> bool
    ensures { result ≡ string_belongs s text.now }
{
    if s.string {
        return true;
    }
    if s.date {
        return is_date(text);
    }
    s.day && is_day(text)
}

fn is_integer(n: Node) -> bool
    ensures { result ≡ is_integer n }
{
    matches!(n, Node::Integer(_))
}

fn is_string(n: Node) -> bool
    ensures { result ≡ is_string n }
{
    matches!(n, Node::String(_))
}

// An array.
fn array_belongs(s: TypeSet, record_table: &[u8], q: Rows) -> bool
    ensures { result ≡ array_belongs s record_table.now q }
{
    s.array
        || s.integers && every_item(record_table, q, is_integer)
        || s.strings && every_item(record_table, q, is_string)
}

// A value of a record.
pub fn has_type(s: TypeSet, record_table: &[u8], record_strings: &[u8], n: Node) -> bool
    ensures { Belongs s record_table.now record_strings.now n result }
{
    match n {
        Node::Null => s.null,
        Node::False => s.boolean,
        Node::True => s.boolean,
        Node::Integer(_) => s.integer,
        Node::String(t) => string_belongs(s, bytes_of(record_strings, t)),
        Node::Array(q) => array_belongs(s, record_table, q),
        Node::Object(_) => s.object,
    }
}

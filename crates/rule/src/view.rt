// What stands at a row of a rule's table: the model's six cases, with the rows of the operands. An object is viewed by its mark.
ghost use Rattle.std.specs.Prelude.{[], ◌∷◌, ◌≡◌, Some, get_or};
ghost use Rattle.rule.specs.View.{within, view_of};
ghost use Rattle.rule.specs.Mark.{unmarked, bare_integer, plus_time_view, operands_views, marked_view, object_view};
ghost use Rattle.rule.specs.Contract.{ViewsAs};

use crate::mark::{mark_at, rows_of};
use crate::operand::{first_of, integer_of};
use crate::text::RuleText;
use keywords::Op;
use model::{Comparison, Domain, TimeUnit};
use table::node::{Node, Rows, next_row, node_at};
use table::row::Span;

// A boolean, an integer to which 2^53 was added, or where a string lies in the rule's strings.
#[derive(Clone, Copy)]
pub enum Literal {
    False,
    True,
    Integer(u64),
    String(Span),
}

// The outermost part of a rule: a literal; where a path's text lies; or an operation and its operands.
#[derive(Clone, Copy)]
pub enum View {
    Literal(Literal),
    Var(Span),
    If(Rows),
    And(Rows),
    Reduce(Rows),
    Apply(Op, Rows),
}

// What a row that holds no rule, and an object that has no mark, is viewed as.
const UNMARKED: View = View::Literal(Literal::False);

// The integer behind the first operand of `plusTime` and `extractFromUVCI`; 0 where none stands there.
fn bare_integer(rows: &[u8], q: Rows) -> u64
    ensures { result ≡ bare_integer rows.now q }
{
    integer_of(node_at(rows, next_row(rows, q.first))).unwrap_or(0)
}

fn plus_time_view(rows: &[u8], unit: TimeUnit, q: Rows) -> View
    ensures { result ≡ plus_time_view rows.now unit q }
{
    let amount = bare_integer(rows, q);
    View::Apply(Op::PlusTime { amount, unit }, first_of(q))
}

fn compare_view(domain: Domain, comparison: Comparison, q: Rows) -> View
    ensures { result ≡ View.Apply (Op.Compare domain comparison) q }
{
    View::Apply(Op::Compare { domain, comparison }, q)
}

// The view of operands with this mark. The table of `mark_of` read the other way: each way a `match` is plainest, since a mark tells no operands.
fn operands_view(rows: &[u8], mark: u8, q: Rows) -> View
    ensures { result ≡ get_or (operands_views rows.now q) mark unmarked }
{
    match mark {
        2 => View::If(q),
        3 => View::And(q),
        4 => View::Reduce(q),
        5 => View::Apply(Op::Equal, q),
        6 => View::Apply(Op::MemberOf, q),
        7 => View::Apply(Op::Plus, q),
        8 => View::Apply(Op::Not, q),
        9 => View::Apply(Op::DateOfBirth, q),
        10 => compare_view(Domain::OnIntegers, Comparison::Greater, q),
        11 => compare_view(Domain::OnIntegers, Comparison::Less, q),
        12 => compare_view(Domain::OnIntegers, Comparison::GreaterOrEqual, q),
        13 => compare_view(Domain::OnIntegers, Comparison::LessOrEqual, q),
        14 => compare_view(Domain::OnInstants, Comparison::Greater, q),
        15 => compare_view(Domain::OnInstants, Comparison::Less, q),
        16 => compare_view(Domain::OnInstants, Comparison::GreaterOrEqual, q),
        17 => compare_view(Domain::OnInstants, Comparison::LessOrEqual, q),
        18 => plus_time_view(rows, TimeUnit::Year, q),
        19 => plus_time_view(rows, TimeUnit::Month, q),
        20 => plus_time_view(rows, TimeUnit::Day, q),
        21 => plus_time_view(rows, TimeUnit::Hour, q),
        22 => View::Apply(Op::ExtractFromUvci(bare_integer(rows, q)), first_of(q)),
        _ => UNMARKED,
    }
}

// The view of a path with this mark.
fn path_view(mark: u8, s: Span) -> View
    ensures { result ≡ get_or (unmarked ∷ View.Var s ∷ []) mark unmarked }
{
    match mark {
        1 => View::Var(s),
        _ => UNMARKED,
    }
}

// The view of an object with this mark and this content.
fn marked_view(rows: &[u8], mark: u8, content: Node) -> View
    ensures { result ≡ marked_view rows.now mark content }
{
    match content {
        Node::String(s) => path_view(mark, s),
        Node::Array(q) => operands_view(rows, mark, q),
        _ => UNMARKED,
    }
}

// An array, where so many nestings are left.
fn array_view(q: Rows, deep: usize) -> View
    ensures { result ≡ view_of (within deep (Some (View.Apply Op.Array q))) }
{
    if deep == 0 {
        return UNMARKED;
    }
    View::Apply(Op::Array, q)
}

// An object by the mark of its row, where so many nestings are left.
fn object_view(rule_table: &[u8], row: usize, q: Rows, deep: usize) -> View
    ensures { result ≡ object_view rule_table.now row q deep }
{
    if deep == 0 {
        return UNMARKED;
    }
    let mark = mark_at(rule_table, row);
    let rows = rows_of(rule_table);
    marked_view(rows, mark, node_at(rows, q.first))
}

// The view of the rule in a row, if it nests no deeper than `deep`. A row that holds no such rule is viewed as the literal false.
pub fn view_at(text: RuleText, row: usize, deep: usize) -> View
    ensures { ViewsAs text.entry.table.now text.entry.strings.now row deep result }
{
    let node = node_at(rows_of(text.table), row);
    match node {
        Node::Null => UNMARKED,
        Node::False => View::Literal(Literal::False),
        Node::True => View::Literal(Literal::True),
        Node::Integer(n) => View::Literal(Literal::Integer(n)),
        Node::String(s) => View::Literal(Literal::String(s)),
        Node::Array(q) => array_view(q, deep),
        Node::Object(q) => object_view(text.table, row, q, deep),
    }
}

// What an object has the shape of: the operation that its single member's name and content make, or no rule.
ghost use Rattle.std.specs.Prelude.{◌≡◌};
ghost use Rattle.rule.specs.View.{single_of, counted_on, and_on, unit_at, plus_time_on, extract_on, path_on, operands_on, content_on, object_on};

use crate::operand::{first_of, integer_of};
use crate::view::View;
use keywords::{Keyword, Op, keyword_named, unit_named};
use model::TimeUnit;
use table::node::{Node, Rows, name_at, next_row, node_at};
use table::row::Span;
use table::string::bytes_of;

// The name and the content of the single member, if there is no other.
fn single_member(rule_table: &[u8], q: Rows) -> Option<(Span, Node)>
    ensures { result ≡ single_of rule_table.now q }
{
    if q.count != 1 {
        return None;
    }
    Some((name_at(rule_table, q.first), node_at(rule_table, q.first)))
}

// An operation with from `least` to `most` operands.
fn counted_operands(least: usize, most: usize, view: View, q: Rows) -> Option<View>
    ensures { result ≡ counted_on least most view q }
{
    if q.count < least || most < q.count {
        return None;
    }
    Some(view)
}

// Two operands or more.
fn and_operands(q: Rows) -> Option<View>
    ensures { result ≡ and_on q }
{
    if q.count < 2 {
        return None;
    }
    Some(View::And(q))
}

// The unit that a string names.
fn unit_at(rule_strings: &[u8], n: Node) -> Option<TimeUnit>
    ensures { result ≡ unit_at rule_strings.now n }
{
    match n {
        Node::String(s) => unit_named(bytes_of(rule_strings, s)),
        _ => None,
    }
}

// "a rule, an integer, one of "year" "month" "day" "hour""
fn plus_time(rule_table: &[u8], rule_strings: &[u8], q: Rows) -> Option<View>
    ensures { result ≡ plus_time_on rule_table.now rule_strings.now q }
{
    if q.count != 3 {
        return None;
    }
    let second = next_row(rule_table, q.first);
    let third = next_row(rule_table, second);
    let amount = integer_of(node_at(rule_table, second))?;
    let unit = unit_at(rule_strings, node_at(rule_table, third))?;
    Some(View::Apply(Op::PlusTime { amount, unit }, first_of(q)))
}

// "a rule, an integer"
fn extract(rule_table: &[u8], q: Rows) -> Option<View>
    ensures { result ≡ extract_on rule_table.now q }
{
    if q.count != 2 {
        return None;
    }
    let index = integer_of(node_at(rule_table, next_row(rule_table, q.first)))?;
    Some(View::Apply(Op::ExtractFromUvci(index), first_of(q)))
}

// `var` takes "a string itself, not an array".
fn path(k: Keyword, s: Span) -> Option<View>
    ensures { result ≡ path_on k s }
{
    match k {
        Keyword::Var => Some(View::Var(s)),
        _ => None,
    }
}

// Every other operation takes operands in an array.
fn operands(rule_table: &[u8], rule_strings: &[u8], k: Keyword, q: Rows) -> Option<View>
    ensures { result ≡ operands_on rule_table.now rule_strings.now k q }
{
    match k {
        Keyword::Var => None,
        Keyword::If => counted_operands(3, 3, View::If(q), q),
        Keyword::Reduce => counted_operands(3, 3, View::Reduce(q), q),
        Keyword::And => and_operands(q),
        Keyword::PlusTime => plus_time(rule_table, rule_strings, q),
        Keyword::ExtractFromUvci => extract(rule_table, q),
        Keyword::Counted { least, most, op } => {
            counted_operands(least, most, View::Apply(op, q), q)
        }
    }
}

// An operation with this content.
fn content_shape(rule_table: &[u8], rule_strings: &[u8], k: Keyword, content: Node) -> Option<View>
    ensures { result ≡ content_on rule_table.now rule_strings.now k content }
{
    match content {
        Node::String(s) => path(k, s),
        Node::Array(q) => operands(rule_table, rule_strings, k, q),
        _ => None,
    }
}

// 01, Shape: "An object must yield its single member, or else it is refused with 6."
pub fn operation(rule_table: &[u8], rule_strings: &[u8], q: Rows) -> Option<View>
    ensures { result ≡ object_on rule_table.now rule_strings.now q }
{
    let (name, content) = single_member(rule_table, q)?;
    let k = keyword_named(bytes_of(rule_strings, name))?;
    content_shape(rule_table, rule_strings, k, content)
}

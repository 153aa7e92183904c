// An operand that is a literal: its value is known by its row.
ghost use Rattle.std.specs.Prelude.{◌≡◌, ◌≤◌};
ghost use Rattle.eval.specs.Inner.{literal_of, literal_next, one_step, one_begun};

use crate::task::{Pending, Task};
use heap::handle::{Area, Handle, string};
use operations::ended::State;
use table::node::{Node, node_at};

// By the row's node; none of a row that holds no literal. A string lies in the rule's strings. (A node is no `rule::view::Literal`: by way of that type,
// of which `start` makes a handle, this match would only be longer.)
fn literal_of(n: Node) -> Option<Handle>
    ensures { result ≡ literal_of n }
{
    match n {
        Node::False => Some(Handle::False),
        Node::True => Some(Handle::True),
        Node::Integer(i) => Some(Handle::Integer(i)),
        Node::String(s) => Some(string(Area::Rule, s.start, s.size)),
        Node::Null | Node::Array(_) | Node::Object(_) => None,
    }
}

// The value of the task's operand, if one is left, with a step for it, and it is a literal.
pub fn literal_next(rule_table: &[u8], task: Task, p: Pending) -> Option<Handle>
    ensures { result ≡ literal_next rule_table.now task p }
{
    if p.rest == 0 || task.state.left == 0 {
        return None;
    }
    literal_of(node_at(rule_table, task.row))
}

// With one step less.
pub fn one_step(t: Task) -> Task
    requires { 1 ≤ t.state.left }
    ensures { result ≡ one_step t }
{
    Task {
        state: State {
            left: t.state.left - 1,
            ..t.state
        },
        ..t
    }
}

// With one operand begun.
pub fn one_begun(p: Pending) -> Pending
    requires { 1 ≤ p.rest }
    ensures { result ≡ one_begun p }
{
    Pending {
        rest: p.rest - 1,
        ..p
    }
}

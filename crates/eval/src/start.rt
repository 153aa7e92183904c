// How a rule begins.
ghost use Rattle.std.specs.Prelude.{◌≡◌, ◌≤◌};
ghost use Rattle.eval.specs.Inner.{Room, literal_handle, first_task, first_argument, Starts};

use crate::task::{Frame, Next, Pending, Task, ends, refused};
use heap::handle::{Area, Form, Handle, compound, string};
use keywords::Op;
use model::refusal::EvalFault;
use name_index::text::IndexedText;
use op_lookup::value_at;
use operations::ended::State;
use rule::text::RuleText;
use rule::view::{Literal, View, view_at};
use table::node::Rows;
use table::string::bytes_of;

// A literal's handle: a string lies in the rule's strings.
fn literal(l: Literal) -> Handle
    ensures { result ≡ literal_handle l }
{
    match l {
        Literal::False => Handle::False,
        Literal::True => Handle::True,
        Literal::Integer(n) => Handle::Integer(n),
        Literal::String(s) => string(Area::Rule, s.start, s.size),
    }
}

// The first operand of an operation, in its context: one nesting less is left.
fn first(q: Rows, context: Handle, s: State) -> Task
    requires { 1 ≤ s.deep }
    ensures { result ≡ first_task q context s }
{
    Task {
        row: q.first,
        context,
        state: State {
            deep: s.deep - 1,
            ..s
        },
    }
}

// The first operand of an operation on all its operands. Only an array may have none: its list is empty.
#[tactic(auto, using(crate::proofs::Begun::no_operand))]
fn first_argument(op: Op, q: Rows, context: Handle, s: State) -> Next
    requires { 1 ≤ s.deep }
    ensures { result ≡ first_argument op q context s }
{
    if q.count == 0 {
        return ends(compound(Form::List, s.top, 0), s);
    }
    let p = Pending {
        op,
        done: 0,
        rest: q.count - 1,
    };
    Next::Asks(first(q, context, s), Frame::Argument(p))
}

// One step, and then what the rule's kind says; refusal 10 where no step is left.
pub fn start(rule: RuleText, record: IndexedText, cells: &[u8], task: Task) -> Next
    requires { Room cells.now 0 0 task.state }
    ensures { Starts rule.entry.table.now rule.entry.strings.now «record».entry.table.now «record».entry.strings.now cells.now task result }
{
    let s = task.state;
    if s.left == 0 {
        return refused(EvalFault::OutOfSteps, 0);
    }
    let begun = State {
        left: s.left - 1,
        ..s
    };
    let context = task.context;
    match view_at(rule, task.row, s.deep) {
        View::Literal(l) => ends(literal(l), begun),
        View::Var(p) => {
            let path = bytes_of(rule.strings, p);
            ends(value_at(path, record, cells, context), begun)
        }
        View::If(q) => Next::Asks(first(q, context, begun), Frame::Guard),
        View::And(q) => Next::Asks(first(q, context, begun), Frame::Conjunct(q.count)),
        View::Reduce(q) => Next::Asks(first(q, context, begun), Frame::Source),
        View::Apply(op, q) => first_argument(op, q, context, begun),
    }
}

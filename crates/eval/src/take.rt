// What an operation does with the value of an operand.
ghost use Rattle.std.specs.Prelude.{◌≡◌, ◌+◌};
ghost use Rattle.eval.specs.Inner.{Room, Argued, Branches, Takes, TakesByRule, TakesByRecord, Taking, TakesEnd};

use crate::literal::{literal_next, one_begun, one_step};
use crate::task::{Frame, Next, Pending, Task, ends, refused};
use heap::cell::put;
use heap::handle::{Form, Handle, compound};
use heap::part::{head, tail};
use model::refusal::{EvalFault, Fault};
use name_index::text::IndexedText;
use op_scalars::array::elements_of;
use op_scalars::truth::{Truth, truth_of};
use operations::apply;
use operations::ended::{Ended, State};
use rule::text::RuleText;
use table::node::next_row;

// The row after a guard, or the one after that.
fn branch(rule_table: &[u8], guard: usize, value: Handle) -> usize
    ensures { Branches rule_table.now guard value result }
{
    let second = next_row(rule_table, guard);
    match truth_of(value) {
        Truth::Truthy => second,
        Truth::Falsy | Truth::Neither => next_row(rule_table, second),
    }
}

// 01: "a truthy guard evaluates the second operand only; otherwise the third only."
fn after_guard(rule_table: &[u8], t: Task, value: Handle) -> Next
    ensures { TakesByRule rule_table.now t Frame.Guard value result }
{
    let row = branch(rule_table, t.row, value);
    Next::Asks(Task { row, ..t }, Frame::Branch)
}

// 01: "operands one by one; the first falsy value, or the last value. An instant is 7 when met."
#[tactic(auto, using(crate::proofs::Taken::conjunct_last, crate::proofs::Taken::conjunct_next))]
fn after_conjunct(rule_table: &[u8], t: Task, count: usize, value: Handle) -> Next
    ensures { TakesByRule rule_table.now t (Frame.Conjunct count) value result }
{
    match truth_of(value) {
        Truth::Falsy => ends(value, t.state),
        Truth::Neither => refused(EvalFault::Operation(Fault::WrongKind), t.state.left),
        Truth::Truthy => {
            if count < 2 {
                return ends(value, t.state);
            }
            let row = next_row(rule_table, t.row);
            Next::Asks(Task { row, ..t }, Frame::Conjunct(count - 1))
        }
    }
}

// 01: "operand, then initial; operand not an array is 7; then the lambda for each item".
fn after_source(rule_table: &[u8], t: Task, items: Handle) -> Next
    ensures { TakesByRule rule_table.now t Frame.Source items result }
{
    let lambda = next_row(rule_table, t.row);
    let row = next_row(rule_table, lambda);
    Next::Asks(Task { row, ..t }, Frame::Item { lambda, items })
}

// With the initial's value, or the lambda's on the item before: the lambda for the next item, over `current` and `accumulator`, which take two
// cells. Where no item is left the value is the rule's.
fn next_item(
    record_table: &[u8],
    cells: &mut [u8],
    t: Task,
    lambda: usize,
    items: Handle,
    value: Handle,
) -> Next
    requires { Room cells.old 2 0 t.state }
    ensures { TakesByRecord record_table.now cells.old t (Frame.Item lambda items) value result cells.new }
{
    let Some(p) = elements_of(items) else {
        return refused(EvalFault::Operation(Fault::WrongKind), t.state.left);
    };
    if p.count == 0 {
        return ends(value, t.state);
    }
    let top = t.state.top;
    put(cells, top, head(record_table, cells, p));
    put(cells, top + 1, value);
    let next = Task {
        row: lambda,
        context: compound(Form::Context, top, 2),
        state: State {
            top: top + 2,
            ..t.state
        },
    };
    let items = Handle::Compound(tail(record_table, cells, p));
    Next::Asks(next, Frame::Item { lambda, items })
}

// The task's operand, or the operation where none is left. Those before stand on the stack.
fn arguments(rule: RuleText, record: IndexedText, cells: &mut [u8], task: Task, p: Pending) -> Next
    requires { Room cells.old (2 + p.done) p.done task.state }
    ensures { Argued rule.entry.strings.now «record».entry.table.now «record».entry.strings.now cells.old task p result cells.new }
{
    if p.rest > 0 {
        return Next::Asks(task, Frame::Argument(one_begun(p)));
    }
    let all = State {
        bottom: task.state.bottom + p.done,
        ..task.state
    };
    Next::Ends(apply(
        rule.strings,
        record.table,
        record.strings,
        cells,
        p.op,
        p.done,
        all,
    ))
}

// The value onto the stack, and then those of the literals that follow; then the next operand, or the operation.
fn after_argument(
    rule: RuleText,
    record: IndexedText,
    cells: &mut [u8],
    mut t: Task,
    mut p: Pending,
    mut value: Handle,
) -> Next
    requires { Room cells.old (4 + p.done) p.done t.state }
    ensures { Takes rule.entry.table.now rule.entry.strings.now «record».entry.table.now «record».entry.strings.now cells.old t (Frame.Argument p) value result cells.new }
{
    loop {
        let bottom = t.state.bottom - 1;
        put(cells, bottom, value);
        let after = State { bottom, ..t.state };
        let next = Task {
            row: next_row(rule.table, t.row),
            state: after,
            ..t
        };
        let more = Pending {
            done: p.done + 1,
            ..p
        };
        let Some(literal) = literal_next(rule.table, next, more) else {
            return arguments(rule, record, cells, next, more);
        };
        value = literal;
        t = one_step(next);
        p = one_begun(more);
    }
}

// With the value of a task's rule, what its frame says; its refusal ends the rule around it.
pub fn take(
    rule: RuleText,
    record: IndexedText,
    cells: &mut [u8],
    task: Task,
    frame: Frame,
    e: Ended,
) -> Next
    requires { Taking cells.old task frame e }
    ensures { TakesEnd rule.entry.table.now rule.entry.strings.now «record».entry.table.now «record».entry.strings.now cells.old task frame e result cells.new }
{
    let Ok(given) = e else {
        return Next::Ends(e);
    };
    let value = given.value;
    let t = Task {
        state: given.state,
        ..task
    };
    match frame {
        Frame::Guard => after_guard(rule.table, t, value),
        Frame::Branch => Next::Ends(e),
        Frame::Conjunct(count) => after_conjunct(rule.table, t, count, value),
        Frame::Source => after_source(rule.table, t, value),
        Frame::Item { lambda, items } => next_item(record.table, cells, t, lambda, items, value),
        Frame::Argument(p) => after_argument(rule, record, cells, t, p, value),
    }
}

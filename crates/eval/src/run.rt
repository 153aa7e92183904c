// Evaluation. It recurses by the nesting of the rule only: operands and items are gone through by one loop.
//
// `cells` holds the heap, from cell 0 up, and the stack of operands, from the last cell down.
ghost use Rattle.std.specs.Prelude.{◌≡◌};
ghost use Rattle.eval.specs.Inner.{Room, resumed_end, Operating, Operates, Evals};

use crate::start::start;
use crate::take::take;
use crate::task::{Frame, Next, Task};
use name_index::text::IndexedText;
use operations::ended::{Ended, Given, State};
use rule::text::RuleText;

// The bottom and the nesting as they were when the rule began.
fn resumed(s: State, e: Ended) -> Ended
    ensures { result ≡ resumed_end s e }
{
    let given = e?;
    Ok(Given {
        state: State {
            bottom: s.bottom,
            deep: s.deep,
            ..given.state
        },
        ..given
    })
}

// Operand after operand, from the first on, until the rule that was begun ends.
#[cycle(eval_operands)]
pub fn operands(
    rule: RuleText,
    record: IndexedText,
    cells: &mut [u8],
    mut task: Task,
    mut frame: Frame,
) -> Ended
    requires { Operating cells.old (Next.Asks task frame) }
    ensures { Operates rule.entry.table.now rule.entry.strings.now «record».entry.table.now «record».entry.strings.now cells.old (Next.Asks task frame) result cells.new }
{
    loop {
        let e = eval(rule, record, cells, task);
        match take(rule, record, cells, task, frame, e) {
            Next::Ends(end) => return end,
            Next::Asks(t, f) => {
                task = t;
                frame = f;
            }
        }
    }
}

// A rule in a context: its value, or its refusal.
#[cycle(eval_operands)]
fn eval(rule: RuleText, record: IndexedText, cells: &mut [u8], task: Task) -> Ended
    requires { Room cells.old 0 0 task.state }
    ensures { Evals rule.entry.table.now rule.entry.strings.now «record».entry.table.now «record».entry.strings.now cells.old task result cells.new }
{
    let s = task.state;
    match start(rule, record, cells, task) {
        Next::Ends(e) => resumed(s, e),
        Next::Asks(first, frame) => {
            let e = operands(rule, record, cells, first, frame);
            resumed(s, e)
        }
    }
}

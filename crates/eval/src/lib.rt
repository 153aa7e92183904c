// The evaluator: a rule on a record, both as reading left them, under a step limit; and its answer, written.
#![tactic(auto)]

ghost use Rattle.std.specs.Prelude.{◌≡◌};
ghost use Rattle.eval.specs.Contract.{Reaches};
ghost use Rattle.eval.specs.Evaluate.{Ready, Evaluates, written_size};

use crate::run::operands;
use crate::task::{Frame, Task};
use area::clear_from;
use heap::areas::Areas;
use heap::handle::{Handle, load};
use model::refusal::{EvalFault, Refusal};
use model::{HEAP_CELLS, MAX_NESTING};
use name_index::text::IndexedText;
use operations::ended::State;
use rule::text::RuleText;
use writer::{WriteFault, write};

mod literal;
mod run;
mod start;
mod take;
mod task;

// The steps begun; the length of the answer's text, or why there is none.
#[derive(Clone, Copy)]
pub struct Evaluated {
    pub steps: usize,
    pub size: Result<usize, Refusal>,
}

// The steps begun; a value, or why there is none.
#[derive(Clone, Copy)]
pub struct Outcome {
    pub steps: usize,
    pub value: Result<Handle, EvalFault>,
}

// The value of a rule on a record, under a limit. Its handle refers to the cells as they are then.
pub fn value(rule: RuleText, record: IndexedText, cells: &mut [u8], limit: usize) -> Outcome
    requires { Ready rule.table.now rule.strings.now «record».table.now «record».strings.now cells.old limit }
    ensures { Reaches rule.entry.table.now rule.entry.strings.now «record».entry.table.now «record».entry.strings.now cells.old limit result cells.new }
{
    let task = Task {
        row: 0,
        context: load(record.table, 0),
        state: State {
            left: limit,
            top: 0,
            bottom: HEAP_CELLS,
            deep: MAX_NESTING,
        },
    };
    match operands(rule, record, cells, task, Frame::Branch) {
        Ok(given) => Outcome {
            steps: limit - given.state.left,
            value: Ok(given.value),
        },
        Err(denied) => Outcome {
            steps: limit - denied.left,
            value: Err(denied.fault),
        },
    }
}

// Evaluates a rule on a record. The answer's text goes into the output, zeros behind it; on a refusal zeros only. The cells are zero afterwards.
pub fn evaluate(
    rule: RuleText,
    record: IndexedText,
    cells: &mut [u8],
    limit: usize,
    output: &mut [u8],
) -> Evaluated
    requires { Ready rule.table.now rule.strings.now «record».table.now «record».strings.now cells.old limit }
    ensures { Evaluates rule.entry.table.now rule.entry.strings.now «record».entry.table.now «record».entry.strings.now cells.old limit output.old result cells.new output.new }
{
    let outcome = value(rule, record, cells, limit);
    match outcome.value {
        Ok(h) => {
            let areas = Areas {
                rule_strings: rule.strings,
                record_strings: record.strings,
                record_table: record.table,
                cells,
            };
            let w = write(areas, h, output);
            clear_from(cells, 0);
            Evaluated {
                steps: outcome.steps,
                size: size_of(w),
            }
        }
        Err(fault) => {
            clear_from(cells, 0);
            clear_from(output, 0);
            Evaluated {
                steps: outcome.steps,
                size: Err(Refusal::Evaluating(fault)),
            }
        }
    }
}

// The length of the text that the writer wrote; or 11, or 12.
fn size_of(w: Result<usize, WriteFault>) -> Result<usize, Refusal>
    ensures { result ≡ written_size w }
{
    Ok(w?)
}

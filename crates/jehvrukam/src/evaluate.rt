// Evaluation from texts: the stages in 01's order.
ghost use Rattle.std.specs.Prelude.{◌≡◌};
ghost use Rattle.pipeline.specs.Areas.{text_areas};
ghost use Rattle.pipeline.specs.Laws.LongAreas.{Long};
ghost use Rattle.pipeline.specs.Texts.{evaluate_stage};
ghost use Rattle.jehvrukam.specs.Contract.{areas_of};
ghost use Rattle.jehvrukam.specs.Entry.{cannot_run};
ghost use Rattle.jehvrukam.specs.Evaluate.{zeros, evaluate_answer};
ghost use Rattle.jehvrukam.specs.Inner.{Judges, Runs, areas_tidied, told, outcome_of};

use eval::{Evaluated, evaluate};
use heap::cell::CELL_BYTES;
use model::{HEAP_CELLS, MAX_STEPS};
use name_index::text::IndexedText;
use pipeline::text::{RECORD_TEXT, Stop, read_rule, read_text};
use rule::text::RuleText;

// What is told to C: a refusal's number, or 0, and the numbers that are told with it.
#[derive(Clone, Copy)]
pub struct Outcome {
    pub refusal: u32,
    pub which: usize,
    pub place: usize,
    pub steps: usize,
    pub size: usize,
}

// Whether the limit is above the largest, or there are not cells enough.
#[tactic(auto, unfolding(model::specs::Limits::max_steps, model::specs::Limits::heap_cells, heap::specs::Cells::cell_bytes))]
pub fn cannot_run(limit: u64, cells: &[u8]) -> bool
    ensures { result ≡ cannot_run limit cells.now }
{
    MAX_STEPS < limit || cells.len() < HEAP_CELLS * CELL_BYTES
}

// Of an evaluation, or of a text that is refused before it.
pub fn outcome_told(r: Result<Evaluated, Stop>) -> Outcome
    ensures { result ≡ outcome_of r }
{
    match r {
        Ok(e) => {
            let (refusal, size) = match e.size {
                Ok(size) => (0, size),
                Err(refusal) => (u32::from(refusal), 0),
            };
            Outcome {
                refusal,
                which: 0,
                place: 0,
                steps: e.steps,
                size,
            }
        }
        Err(s) => Outcome {
            refusal: u32::from(s.refusal),
            which: s.which,
            place: s.place,
            steps: 0,
            size: 0,
        },
    }
}

// Rule read; 6; record read; evaluation; 11; 12. The lent areas stay parameters: a struct of `&mut` areas needs more clauses than it saves.
pub fn judge(
    rule_text: &[u8],
    record_text: &[u8],
    limit: usize,
    rule_table: &mut [u8],
    rule_strings: &mut [u8],
    record_table: &mut [u8],
    record_strings: &mut [u8],
    cells: &mut [u8],
    output: &mut [u8],
) -> Result<Evaluated, Stop>
    requires { Long (text_areas rule_table.old rule_strings.old) × Long (text_areas record_table.old record_strings.old) × Runs limit cells.old }
    ensures { Judges areas_tidied zeros (evaluate_answer (areas_of rule_table.old rule_strings.old record_table.old record_strings.old cells.old output.old) limit (evaluate_stage rule_text.now record_text.now)) (areas_of rule_table.old rule_strings.old record_table.old record_strings.old cells.old output.old) (outcome_of result).refusal (told (outcome_of result)) (areas_of rule_table.new rule_strings.new record_table.new record_strings.new cells.new output.new) }
{
    read_rule(rule_text, rule_table, rule_strings)?;
    read_text(RECORD_TEXT, record_text, record_table, record_strings)?;
    let rule = RuleText {
        table: rule_table,
        strings: rule_strings,
    };
    let record = IndexedText {
        table: record_table,
        strings: record_strings,
    };
    Ok(evaluate(rule, record, cells, limit, output))
}

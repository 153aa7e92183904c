// Evaluation under a sheet, from texts: the stages in 01's order.
ghost use Rattle.std.specs.Prelude.{◌≡◌, Ok};
ghost use Rattle.pipeline.specs.Areas.{text_areas};
ghost use Rattle.pipeline.specs.Laws.LongAreas.{Long};
ghost use Rattle.pipeline.specs.Texts.{evaluate_checked_stage};
ghost use Rattle.jehvrukam.specs.Contract.{checked_areas_of};
ghost use Rattle.jehvrukam.specs.Entry.{work_areas};
ghost use Rattle.jehvrukam.specs.EvaluateChecked.{checked_zeros, evaluate_checked_answer};
ghost use Rattle.jehvrukam.specs.Inner.{AfterCheck, Judges, JudgesAfter, Runs, checked_outcome_of, checked_tidied, checked_told};

use eval::{Evaluated, evaluate};
use name_index::text::IndexedText;
use pipeline::check::check_texts;
use pipeline::text::{RECORD_TEXT, Stop, read_text};
use rule::text::RuleText;
use sheet::fit::fits;
use type_set::set::{TypeSet, bits};

// What is told to C: a refusal's number, or 0, and the numbers that are told with it.
#[derive(Clone, Copy)]
pub struct CheckedOutcome {
    pub refusal: u32,
    pub which: usize,
    pub place: usize,
    pub words: u64,
    pub fits: bool,
    pub steps: usize,
    pub size: usize,
}

// What is known once evaluation has ended: the types found, whether the record fits, and how it ended.
#[derive(Clone, Copy)]
pub struct Ran {
    pub types: TypeSet,
    pub fits: bool,
    pub evaluated: Evaluated,
}

// After evaluation the types found and whether the record fits are told, with a refusal too; of a text that is refused before it they are not.
pub fn checked_outcome_told(r: Result<Ran, Stop>) -> CheckedOutcome
    ensures { result ≡ checked_outcome_of r }
{
    match r {
        Ok(n) => {
            let e = n.evaluated;
            let (refusal, size) = match e.size {
                Ok(size) => (0, size),
                Err(refusal) => (u32::from(refusal), 0),
            };
            CheckedOutcome {
                refusal,
                which: 0,
                place: 0,
                words: bits(n.types),
                fits: n.fits,
                steps: e.steps,
                size,
            }
        }
        Err(s) => CheckedOutcome {
            refusal: u32::from(s.refusal),
            which: s.which,
            place: s.place,
            words: 0,
            fits: false,
            steps: 0,
            size: 0,
        },
    }
}

// After a check that found the types: record read; evaluation; 11; 12.
fn run_checked(
    types: TypeSet,
    record_text: &[u8],
    limit: usize,
    rule_table: &[u8],
    rule_strings: &[u8],
    sheet_table: &[u8],
    sheet_strings: &[u8],
    record_table: &mut [u8],
    record_strings: &mut [u8],
    cells: &mut [u8],
    output: &mut [u8],
) -> Result<Ran, Stop>
    requires { AfterCheck (Ok types) (text_areas rule_table.now rule_strings.now) (text_areas sheet_table.now sheet_strings.now) × Long (text_areas record_table.old record_strings.old) × Runs limit cells.old }
    ensures { JudgesAfter (Ok types) record_text.now limit (checked_areas_of rule_table.now rule_strings.now sheet_table.now sheet_strings.now record_table.old record_strings.old cells.old output.old) result (text_areas record_table.new record_strings.new) (work_areas cells.new output.new) }
{
    read_text(RECORD_TEXT, record_text, record_table, record_strings)?;
    let rule = RuleText {
        table: rule_table,
        strings: rule_strings,
    };
    let record = IndexedText {
        table: record_table,
        strings: record_strings,
    };
    let fits = fits(sheet_table, sheet_strings, record);
    let evaluated = evaluate(rule, record, cells, limit, output);
    Ok(Ran {
        types,
        fits,
        evaluated,
    })
}

// Rule read; 6; sheet read; 14; 13; record read; evaluation; 11; 12.
pub fn judge(
    rule_text: &[u8],
    sheet_text: &[u8],
    record_text: &[u8],
    limit: usize,
    rule_table: &mut [u8],
    rule_strings: &mut [u8],
    sheet_table: &mut [u8],
    sheet_strings: &mut [u8],
    record_table: &mut [u8],
    record_strings: &mut [u8],
    cells: &mut [u8],
    output: &mut [u8],
) -> Result<Ran, Stop>
    requires { Long (text_areas rule_table.old rule_strings.old) × Long (text_areas sheet_table.old sheet_strings.old) × Long (text_areas record_table.old record_strings.old) × Runs limit cells.old }
    ensures { Judges checked_tidied checked_zeros (evaluate_checked_answer (checked_areas_of rule_table.old rule_strings.old sheet_table.old sheet_strings.old record_table.old record_strings.old cells.old output.old) limit (evaluate_checked_stage rule_text.now sheet_text.now record_text.now)) (checked_areas_of rule_table.old rule_strings.old sheet_table.old sheet_strings.old record_table.old record_strings.old cells.old output.old) (checked_outcome_of result).refusal (checked_told (checked_outcome_of result)) (checked_areas_of rule_table.new rule_strings.new sheet_table.new sheet_strings.new record_table.new record_strings.new cells.new output.new) }
{
    let types = check_texts(
        rule_text,
        sheet_text,
        rule_table,
        rule_strings,
        sheet_table,
        sheet_strings,
    )?;
    run_checked(
        types,
        record_text,
        limit,
        rule_table,
        rule_strings,
        sheet_table,
        sheet_strings,
        record_table,
        record_strings,
        cells,
        output,
    )
}

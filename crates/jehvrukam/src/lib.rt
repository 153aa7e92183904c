// The entries for C (include/jehvrukam.h). Each contract is one equation: the answer and the last bytes of every lent
// area are what a definition says of the bytes given, whatever they are.
#![tactic(auto)]

ghost use Rattle.std.specs.Prelude.{◌≡◌};
ghost use Rattle.syntax.specs.Entry.{read_entry};
ghost use Rattle.jehvrukam.specs.Check.{check_entry};
ghost use Rattle.jehvrukam.specs.Contract.{answered, entry, areas_of, numbers_of, check_areas_of, check_numbers_of, fits_areas_of, fits_numbers_of, checked_areas_of, checked_numbers_of};
ghost use Rattle.jehvrukam.specs.Evaluate.{evaluate_entry};
ghost use Rattle.jehvrukam.specs.EvaluateChecked.{evaluate_checked_entry};
ghost use Rattle.jehvrukam.specs.Fits.{fits_entry};

use crate::evaluate::{cannot_run, judge, outcome_told};
use crate::evaluate_checked::{checked_outcome_told, judge as judge_checked};
use crate::settle::{settle_text, settle_work};
use crate::told::told;
pub use crate::view::{
    jehvrukam_view, jehvrukam_view_integer, jehvrukam_view_name, jehvrukam_view_part,
    jehvrukam_view_string,
};
use json_reader::{NotRead, read};
use model::refusal::Refusal;
use pipeline::check::check_texts;
use pipeline::fit::fit_texts;
use pipeline::text::is_short;
use type_set::set::{bits, none};

mod evaluate;
mod evaluate_checked;
mod settle;
mod told;
mod view;

// Reads a text into a table of rows and a strings area.
#[unsafe(no_mangle)]
pub extern "C" fn jehvrukam_read(
    text: &[u8],
    table: &mut [u8],
    strings: &mut [u8],
    place: &mut u64,
) -> u32
    ensures { answered result place.new table.new strings.new ≡ read_entry text.now table.old strings.old place.old }
{
    match read(text, table, strings) {
        Ok(_) => {
            *place = 0;
            0
        }
        Err(NotRead::AreaTooShort) => u32::from(Refusal::InvalidArgument),
        Err(NotRead::Fault(f)) => {
            *place = f.at as u64;
            u32::from(f.reason)
        }
    }
}

// Checks a rule's text under a sheet's, and tells the types that the rule may give, a bit for each.
#[unsafe(no_mangle)]
pub extern "C" fn jehvrukam_check(
    rule_text: &[u8],
    sheet_text: &[u8],
    rule_table: &mut [u8],
    rule_strings: &mut [u8],
    sheet_table: &mut [u8],
    sheet_strings: &mut [u8],
    which: &mut u64,
    place: &mut u64,
    words: &mut u64,
) -> u32
    ensures { entry result (check_numbers_of which.new place.new words.new) (check_areas_of rule_table.new rule_strings.new sheet_table.new sheet_strings.new) ≡ check_entry rule_text.now sheet_text.now (check_areas_of rule_table.old rule_strings.old sheet_table.old sheet_strings.old) (check_numbers_of which.old place.old words.old) }
{
    if is_short(rule_table, rule_strings) {
        return 1;
    }
    if is_short(sheet_table, sheet_strings) {
        return 1;
    }
    let checked = check_texts(
        rule_text,
        sheet_text,
        rule_table,
        rule_strings,
        sheet_table,
        sheet_strings,
    );
    let c = told(checked, none());
    settle_text(c.refusal == 0, rule_table, rule_strings);
    settle_text(c.refusal == 0, sheet_table, sheet_strings);
    *which = c.which as u64;
    *place = c.place as u64;
    *words = bits(c.value);
    c.refusal
}

// Tells whether a record's text fits a sheet's.
#[unsafe(no_mangle)]
pub extern "C" fn jehvrukam_fits(
    sheet_text: &[u8],
    record_text: &[u8],
    sheet_table: &mut [u8],
    sheet_strings: &mut [u8],
    record_table: &mut [u8],
    record_strings: &mut [u8],
    which: &mut u64,
    place: &mut u64,
    fits: &mut u64,
) -> u32
    ensures { entry result (fits_numbers_of which.new place.new fits.new) (fits_areas_of sheet_table.new sheet_strings.new record_table.new record_strings.new) ≡ fits_entry sheet_text.now record_text.now (fits_areas_of sheet_table.old sheet_strings.old record_table.old record_strings.old) (fits_numbers_of which.old place.old fits.old) }
{
    if is_short(sheet_table, sheet_strings) {
        return 1;
    }
    if is_short(record_table, record_strings) {
        return 1;
    }
    let fitted = fit_texts(
        sheet_text,
        record_text,
        sheet_table,
        sheet_strings,
        record_table,
        record_strings,
    );
    let f = told(fitted, false);
    settle_text(f.refusal == 0, sheet_table, sheet_strings);
    settle_text(f.refusal == 0, record_table, record_strings);
    *which = f.which as u64;
    *place = f.place as u64;
    *fits = u64::from(f.value);
    f.refusal
}

// Evaluates a rule's text on a record's text under a step limit, and writes the answer's text into the output.
#[unsafe(no_mangle)]
pub extern "C" fn jehvrukam_evaluate(
    rule_text: &[u8],
    record_text: &[u8],
    limit: u64,
    rule_table: &mut [u8],
    rule_strings: &mut [u8],
    record_table: &mut [u8],
    record_strings: &mut [u8],
    cells: &mut [u8],
    output: &mut [u8],
    which: &mut u64,
    place: &mut u64,
    steps: &mut u64,
    length: &mut u64,
) -> u32
    ensures { entry result (numbers_of which.new place.new steps.new length.new) (areas_of rule_table.new rule_strings.new record_table.new record_strings.new cells.new output.new) ≡ evaluate_entry rule_text.now record_text.now limit (areas_of rule_table.old rule_strings.old record_table.old record_strings.old cells.old output.old) (numbers_of which.old place.old steps.old length.old) }
{
    if cannot_run(limit, cells) {
        return 1;
    }
    if is_short(rule_table, rule_strings) {
        return 1;
    }
    if is_short(record_table, record_strings) {
        return 1;
    }
    let judged = judge(
        rule_text,
        record_text,
        limit as usize,
        rule_table,
        rule_strings,
        record_table,
        record_strings,
        cells,
        output,
    );
    let e = outcome_told(judged);
    settle_text(e.refusal == 0, rule_table, rule_strings);
    settle_text(e.refusal == 0, record_table, record_strings);
    settle_work(e.refusal == 0, cells, output);
    *which = e.which as u64;
    *place = e.place as u64;
    *steps = e.steps as u64;
    *length = e.size as u64;
    e.refusal
}

// The same under a sheet's text: the rule has to pass the kind check first. It also tells the types found, and whether the record fits.
#[unsafe(no_mangle)]
pub extern "C" fn jehvrukam_evaluate_checked(
    rule_text: &[u8],
    sheet_text: &[u8],
    record_text: &[u8],
    limit: u64,
    rule_table: &mut [u8],
    rule_strings: &mut [u8],
    sheet_table: &mut [u8],
    sheet_strings: &mut [u8],
    record_table: &mut [u8],
    record_strings: &mut [u8],
    cells: &mut [u8],
    output: &mut [u8],
    which: &mut u64,
    place: &mut u64,
    words: &mut u64,
    fits: &mut u64,
    steps: &mut u64,
    length: &mut u64,
) -> u32
    ensures { entry result (checked_numbers_of which.new place.new words.new fits.new steps.new length.new) (checked_areas_of rule_table.new rule_strings.new sheet_table.new sheet_strings.new record_table.new record_strings.new cells.new output.new) ≡ evaluate_checked_entry rule_text.now sheet_text.now record_text.now limit (checked_areas_of rule_table.old rule_strings.old sheet_table.old sheet_strings.old record_table.old record_strings.old cells.old output.old) (checked_numbers_of which.old place.old words.old fits.old steps.old length.old) }
{
    if cannot_run(limit, cells) {
        return 1;
    }
    if is_short(rule_table, rule_strings) {
        return 1;
    }
    if is_short(sheet_table, sheet_strings) {
        return 1;
    }
    if is_short(record_table, record_strings) {
        return 1;
    }
    let judged = judge_checked(
        rule_text,
        sheet_text,
        record_text,
        limit as usize,
        rule_table,
        rule_strings,
        sheet_table,
        sheet_strings,
        record_table,
        record_strings,
        cells,
        output,
    );
    let o = checked_outcome_told(judged);
    settle_text(o.refusal == 0, rule_table, rule_strings);
    settle_text(o.refusal == 0, sheet_table, sheet_strings);
    settle_text(o.refusal == 0, record_table, record_strings);
    settle_work(o.refusal == 0, cells, output);
    *which = o.which as u64;
    *place = o.place as u64;
    *words = o.words;
    *fits = u64::from(o.fits);
    *steps = o.steps as u64;
    *length = o.size as u64;
    o.refusal
}

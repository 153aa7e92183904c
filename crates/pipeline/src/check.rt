// A rule's text and a sheet's: rule read; 6; sheet read; 14; 13.
ghost use Rattle.pipeline.specs.Areas.{text_areas};
ghost use Rattle.pipeline.specs.Contract.{ChecksTexts};

use crate::sheet_text::read_sheet;
use crate::text::{Stop, read_rule};
use model::refusal::Refusal;
use name_index::text::IndexedText;
use rule::text::RuleText;
use type_check::check::check;
use type_set::set::TypeSet;

pub fn check_texts(
    rule: &[u8],
    sheet: &[u8],
    rule_table: &mut [u8],
    rule_strings: &mut [u8],
    sheet_table: &mut [u8],
    sheet_strings: &mut [u8],
) -> Result<TypeSet, Stop>
    ensures { ChecksTexts rule.now sheet.now (text_areas rule_table.old rule_strings.old) (text_areas sheet_table.old sheet_strings.old) result (text_areas rule_table.new rule_strings.new) (text_areas sheet_table.new sheet_strings.new) }
{
    read_rule(rule, rule_table, rule_strings)?;
    read_sheet(sheet, sheet_table, sheet_strings)?;
    let rule = RuleText {
        table: rule_table,
        strings: rule_strings,
    };
    let sheet = IndexedText {
        table: sheet_table,
        strings: sheet_strings,
    };
    let Some(types) = check(rule, sheet) else {
        return Err(Stop::from(Refusal::NotAccepted));
    };
    Ok(types)
}

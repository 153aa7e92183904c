// A sheet's text and a record's: sheet read; 14; record read; whether the record fits.
ghost use Rattle.pipeline.specs.Areas.{text_areas};
ghost use Rattle.pipeline.specs.Contract.{FitsTexts};

use crate::sheet_text::read_sheet;
use crate::text::{RECORD_TEXT, Stop, read_text};
use name_index::text::IndexedText;
use sheet::fit::fits;

pub fn fit_texts(
    sheet: &[u8],
    record: &[u8],
    sheet_table: &mut [u8],
    sheet_strings: &mut [u8],
    record_table: &mut [u8],
    record_strings: &mut [u8],
) -> Result<bool, Stop>
    ensures { FitsTexts sheet.now «record».now (text_areas sheet_table.old sheet_strings.old) (text_areas record_table.old record_strings.old) result (text_areas sheet_table.new sheet_strings.new) (text_areas record_table.new record_strings.new) }
{
    read_sheet(sheet, sheet_table, sheet_strings)?;
    read_text(RECORD_TEXT, record, record_table, record_strings)?;
    let text = IndexedText {
        table: record_table,
        strings: record_strings,
    };
    Ok(fits(sheet_table, sheet_strings, text))
}

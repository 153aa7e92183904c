// A sheet's text, read into its two areas.
ghost use Rattle.pipeline.specs.Areas.{text_areas};
ghost use Rattle.pipeline.specs.Contract.{ReadsSheet};

use crate::text::{SHEET_TEXT, Stop, read_text};
use model::refusal::Refusal;
use sheet::check::is_sheet;

// A sheet's text; 14 where it is not one.
pub fn read_sheet(text: &[u8], table: &mut [u8], strings: &mut [u8]) -> Result<(), Stop>
    ensures { ReadsSheet text.now (text_areas table.old strings.old) result (text_areas table.new strings.new) }
{
    read_text(SHEET_TEXT, text, table, strings)?;
    if !is_sheet(table, strings) {
        return Err(Stop::from(Refusal::NotSheet));
    }
    Ok(())
}

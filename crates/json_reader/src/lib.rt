// The reader: a text into a table of rows and a strings area.
#![tactic(auto)]

ghost use Rattle.std.specs.Prelude.{◌≡◌, ◌*◌, ◌≤◌, length};
ghost use Rattle.area.specs.Words.{zero_from};
ghost use Rattle.model.specs.Limits.{max_values};
ghost use Rattle.name_index.specs.Table.{IndexedTable, IndexedWhole};
ghost use Rattle.syntax.specs.Layout.{row_bytes, table_bytes, strings_bytes};
ghost use Rattle.json_reader.specs.Contract.{AllRead, RowsRead, RowsReadAs};
ghost use Rattle.json_reader.specs.Inner.{TextRead};

use crate::row::Label;
use crate::step::Cursor;
use crate::tree::value;
use area::{clear_between, clear_from};
use model::refusal::ReadFault;
use model::{MAX_TEXT_BYTES, MAX_VALUES};
use name_index::items::link_items;
use scan::Fault;
use scan::token::skip_white;
use syntax::{ROW_BYTES, STRINGS_BYTES, TABLE_BYTES};

mod list;
mod name;
mod row;
mod scalar;
mod step;
mod tree;

// Why there is no table: an area is below its stated size, or the text does not read.
#[derive(Clone, Copy)]
pub enum NotRead {
    AreaTooShort,
    Fault(Fault),
}

// The whole text: one value, white space around it. How many rows and bytes of strings it has stands in the cursor.
fn read_text(text: &[u8], table: &mut [u8], strings: &mut [u8]) -> Result<Cursor, Fault>
    requires { (table_bytes ≤ length table.old) × (strings_bytes ≤ length strings.old) }
    ensures { TextRead text.now table.old strings.old result table.new strings.new }
{
    if MAX_TEXT_BYTES < text.len() {
        return Err(Fault {
            reason: ReadFault::TooLarge,
            at: MAX_TEXT_BYTES,
        });
    }
    let at = skip_white(text, 0);
    let bare = Label { start: 0, size: 0 };
    let last = value(text, at, table, 0, strings, 0, 0, bare)?;
    let end = skip_white(text, last.at);
    if end < text.len() {
        return Err(Fault {
            reason: ReadFault::NotJson,
            at: end,
        });
    }
    Ok(last)
}

// Reads a text into the two areas, and gives the number of rows. Behind the rows of the table the index of names stays.
pub fn read_rows(text: &[u8], table: &mut [u8], strings: &mut [u8]) -> Result<usize, NotRead>
    ensures { RowsRead text.now table.old strings.old result table.new strings.new }
{
    if table.len() < TABLE_BYTES || strings.len() < STRINGS_BYTES {
        return Err(NotRead::AreaTooShort);
    }
    match read_text(text, table, strings) {
        Err(f) => {
            clear_from(table, 0);
            clear_from(strings, 0);
            Err(NotRead::Fault(f))
        }
        Ok(last) => {
            clear_between(table, last.row * ROW_BYTES, MAX_VALUES * ROW_BYTES);
            clear_from(strings, last.used);
            Ok(last.row)
        }
    }
}

// Reads a text into the two areas, and enters the items of its long arrays. Behind the rows of the table the index of names and items stays.
#[tactic(auto, using(crate::proofs::All::law_unread, crate::proofs::All::law_entered))]
pub fn read_indexed(text: &[u8], table: &mut [u8], strings: &mut [u8]) -> Result<usize, NotRead>
    ensures { RowsReadAs IndexedWhole text.now table.old strings.old result table.new strings.new }
{
    let rows = read_rows(text, table, strings)?;
    link_items(table, rows);
    Ok(rows)
}

// Zeros behind the rows of a table.
#[tactic(auto, unfolding(model::specs::Limits::max_values, syntax::specs::Layout::row_bytes))]
pub fn clear_index(table: &mut [u8])
    ensures { table.new ≡ zero_from (max_values * row_bytes) table.old }
{
    clear_from(table, MAX_VALUES * ROW_BYTES);
}

// Reads a text into the two areas, and leaves no index.
#[tactic(auto, using(crate::proofs::All::law_kept))]
pub fn read(text: &[u8], table: &mut [u8], strings: &mut [u8]) -> Result<usize, NotRead>
    ensures { AllRead text.now table.old strings.old result table.new strings.new }
{
    let count = read_rows(text, table, strings)?;
    clear_index(table);
    Ok(count)
}

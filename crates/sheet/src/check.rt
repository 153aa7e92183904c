// Whether a read text is a sheet; 14 where it is not.
ghost use Rattle.std.specs.Prelude.{◌≡◌};
ghost use Rattle.model.specs.Option.{is_some};
ghost use Rattle.model.specs.Sheet.{entry_path};
ghost use Rattle.sheet.specs.Contract.{ChecksSheet};
ghost use Rattle.sheet.specs.Inner.{ChecksEntry, ChecksEntries, ChecksObject};

use crate::content::types_in;
use model::MAX_SHEET_MEMBERS;
use octets::path::is_path;
use table::node::{Node, Rows, name_at, node_at, tail};
use table::string::bytes_of;

// "Each name is a non-empty `var` path"
#[tactic(auto, using(crate::proofs::Paths::no_name))]
fn is_listed_path(text: &[u8]) -> bool
    ensures { result ≡ is_some (entry_path text.now) }
{
    !text.is_empty() && is_path(text)
}

// The member in a row lists types for a path.
fn is_entry(sheet_table: &[u8], sheet_strings: &[u8], row: usize) -> bool
    ensures { ChecksEntry sheet_table.now sheet_strings.now row result }
{
    is_listed_path(bytes_of(sheet_strings, name_at(sheet_table, row)))
        && types_in(sheet_table, sheet_strings, node_at(sheet_table, row)).is_some()
}

// All members do.
fn are_entries(sheet_table: &[u8], sheet_strings: &[u8], q: Rows) -> bool
    ensures { ChecksEntries sheet_table.now sheet_strings.now q result }
{
    let mut rest = q;
    while rest.count > 0 {
        if !is_entry(sheet_table, sheet_strings, rest.first) {
            return false;
        }
        rest = tail(sheet_table, rest);
    }
    true
}

// "A sheet is an object of at most 256 members."
fn is_sheet_object(sheet_table: &[u8], sheet_strings: &[u8], q: Rows) -> bool
    ensures { ChecksObject sheet_table.now sheet_strings.now q result }
{
    q.count <= MAX_SHEET_MEMBERS && are_entries(sheet_table, sheet_strings, q)
}

// Whether the text that was read into the table and the strings is a sheet.
pub fn is_sheet(sheet_table: &[u8], sheet_strings: &[u8]) -> bool
    ensures { ChecksSheet sheet_table.now sheet_strings.now result }
{
    let Node::Object(q) = node_at(sheet_table, 0) else {
        return false;
    };
    is_sheet_object(sheet_table, sheet_strings, q)
}

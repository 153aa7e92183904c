// The types that a sheet lists for a path.
ghost use Rattle.sheet.specs.Contract.{ListsFor};
ghost use Rattle.sheet.specs.Inner.{ListsAmong};

use crate::entry::types_at;
use name_index::text::IndexedText;
use paths::members::row_named;
use table::node::{Node, Rows, node_at};
use type_set::set::{TypeSet, any_of_record};

// The types of the member whose name is the path.
fn types_among(sheet: IndexedText, q: Rows, path: &[u8]) -> TypeSet
    ensures { ListsAmong sheet.entry.table.now sheet.entry.strings.now path.now q result }
{
    let found = row_named(path, sheet, q);
    match found {
        None => any_of_record(),
        Some(row) => types_at(sheet.table, sheet.strings, row),
    }
}

// "the sheet's words, else null, boolean, integer, string, array, object"
pub fn types_for(sheet: IndexedText, path: &[u8]) -> TypeSet
    ensures { ListsFor sheet.entry.table.now sheet.entry.strings.now path.now result }
{
    let Node::Object(q) = node_at(sheet.table, 0) else {
        return any_of_record();
    };
    types_among(sheet, q, path)
}

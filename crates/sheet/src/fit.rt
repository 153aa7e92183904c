// Whether a record fits a sheet.
ghost use Rattle.sheet.specs.Contract.{Fits};
ghost use Rattle.sheet.specs.Inner.{FitsEntry, FitsAll};

use crate::belong::has_type;
use crate::entry::types_at;
use name_index::text::IndexedText;
use paths::find;
use table::node::{Node, Rows, name_at, node_at, tail};
use table::string::bytes_of;
use type_set::set::TypeSet;

// Whether the value at a path, "null where missing", belongs to a listed type.
fn entry_fits(path: &[u8], listed: TypeSet, record: IndexedText) -> bool
    ensures { FitsEntry path.now listed «record».entry.table.now «record».entry.strings.now result }
{
    let whole = node_at(record.table, 0);
    let value = find(path, record, whole);
    has_type(listed, record.table, record.strings, value)
}

// Every entry does.
fn all_fit(sheet_table: &[u8], sheet_strings: &[u8], q: Rows, record: IndexedText) -> bool
    ensures { FitsAll sheet_table.now sheet_strings.now q «record».entry.table.now «record».entry.strings.now result }
{
    let mut rest = q;
    while rest.count > 0 {
        let path = bytes_of(sheet_strings, name_at(sheet_table, rest.first));
        let listed = types_at(sheet_table, sheet_strings, rest.first);
        if !entry_fits(path, listed, record) {
            return false;
        }
        rest = tail(sheet_table, rest);
    }
    true
}

// "A record fits if at each path its value, null where missing, belongs to a listed word".
pub fn fits(sheet_table: &[u8], sheet_strings: &[u8], record: IndexedText) -> bool
    ensures { Fits sheet_table.now sheet_strings.now «record».entry.table.now «record».entry.strings.now result }
{
    let Node::Object(q) = node_at(sheet_table, 0) else {
        return true;
    };
    all_fit(sheet_table, sheet_strings, q, record)
}

// An entry of a sheet: the types that a member's content lists.
ghost use Rattle.sheet.specs.Inner.{ListsTypes};

use crate::content::types_in;
use table::node::node_at;
use type_set::set::{TypeSet, none};

// The types of the member in a row; none where its content lists none.
pub fn types_at(sheet_table: &[u8], sheet_strings: &[u8], row: usize) -> TypeSet
    ensures { ListsTypes sheet_table.now sheet_strings.now row result }
{
    types_in(sheet_table, sheet_strings, node_at(sheet_table, row)).unwrap_or(none())
}

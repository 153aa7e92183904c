// A name among those of an object's members, by their index.
ghost use Rattle.std.specs.Prelude.{◌/◌, ◌≤◌, length};
ghost use Rattle.syntax.specs.Layout.{table_bytes};
ghost use Rattle.name_index.specs.Contract.{Finds};
ghost use Rattle.name_index.specs.Inner.{NamedSlot};

use crate::{NO_STOP, descend};
use model::MAX_VALUES;
use octets::same;
use syntax::TABLE_BYTES;
use table::node::name_at;
use table::string::bytes_of;

// The row of the member of a name, in the object whose first member is in `first`. The names lie in `strings`.
pub fn find(table: &[u8], strings: &[u8], first: usize, name: &[u8]) -> Option<usize>
    ensures { Finds table.now strings.now first name.now result }
{
    if first == 0 || MAX_VALUES <= first || table.len() < TABLE_BYTES {
        return None;
    }
    let end = descend(table, name, first - 1, MAX_VALUES - 1, NO_STOP);
    named(table, strings, end.link, name)
}

// The row of a leaf to which a link leads, if the member there has this name.
fn named(table: &[u8], strings: &[u8], link: usize, name: &[u8]) -> Option<usize>
    requires { table_bytes ≤ length table.now }
    ensures { NamedSlot table.now strings.now (link / 2) name.now result }
{
    let row = link / 2 + 1;
    let member = bytes_of(strings, name_at(table, row));
    same(name, member).then_some(row)
}

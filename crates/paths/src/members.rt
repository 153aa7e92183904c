// The member that a name has in an object.
ghost use Rattle.std.specs.Prelude.{true, ◌≡◌};
ghost use Rattle.paths.specs.Contract.{row_named};
ghost use Rattle.paths.specs.Inner.{Indexable};

use crate::owner::are_members;
use name_index::find::find;
use name_index::text::IndexedText;
use octets::same;
use table::node::{Rows, name_at, next_row};
use table::string::bytes_of;

// Among so many a name of so many bytes is found sooner row by row than by the index. A longer one may be compared with as many bytes for each.
const FEW: usize = 16;

const SHORT: usize = 32;

// The first of some rows with this name, row by row.
#[tactic(auto, using(crate::proofs::Rows::named_none, crate::proofs::Rows::named_first, crate::proofs::Rows::named_later))]
fn row_among(name: &[u8], text: IndexedText, q: Rows) -> Option<usize>
    ensures { result ≡ row_named text.entry.table.now text.entry.strings.now name.now q.first q.count }
{
    let mut row = q.first;
    for _ in 0..q.count {
        if same(name, bytes_of(text.strings, name_at(text.table, row))) {
            return Some(row);
        }
        row = next_row(text.table, row);
    }
    None
}

// Whether a name is looked for by the index: some rows are all members of an object, and many, or the name is long.
fn goes_by_index(name: &[u8], table: &[u8], q: Rows) -> bool
    ensures { result ≡ true → Indexable table.now q }
{
    q.count > 0 && (q.count > FEW || name.len() > SHORT) && are_members(table, q)
}

// The first of some rows with this name.
#[tactic(auto, using(crate::proofs::Rows::named_indexed))]
pub fn row_named(name: &[u8], text: IndexedText, q: Rows) -> Option<usize>
    ensures { result ≡ row_named text.entry.table.now text.entry.strings.now name.now q.first q.count }
{
    if goes_by_index(name, text.table, q) {
        return find(text.table, text.strings, q.first, name);
    }
    row_among(name, text, q)
}

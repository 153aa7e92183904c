// `var`: the value at a path, by handles: through cells here, through the record's rows by crate paths.
#![tactic(auto)]

ghost use Rattle.std.specs.Prelude.{◌≡◌, ◌+◌};
ghost use Rattle.heap.specs.Cells.{cell_handle};
ghost use Rattle.op_lookup.specs.Contract.{Leads};
ghost use Rattle.op_lookup.specs.Inner.{place_of, member_of, ItemNamed, PartNamed};

use heap::cell::get;
use heap::handle::{Form, Handle, Parts};
use name_index::text::IndexedText;
use octets::path::fragment_end;
use octets::same;
use paths::find;
use paths::index::read_index;
use table::node::{Node, Rows};

// The node of a value that lies in the record; none of one that lies in cells, or has no parts.
fn place_of(h: Handle) -> Option<Node>
    ensures { result ≡ place_of h }
{
    let Handle::Compound(p) = h else {
        return None;
    };
    let Parts { form, first, count } = p;
    match form {
        Form::Items => Some(Node::Array(Rows { first, count })),
        Form::Members => Some(Node::Object(Rows { first, count })),
        Form::List | Form::Context => None,
    }
}

// The handle so many cells after a cell; null where there is no such cell.
#[tactic(auto, using(crate::proofs::Parts::no_cell))]
fn cell_after(cells: &[u8], cell: usize, at: usize) -> Handle
    ensures { result ≡ cell_handle cells.now (cell + at) }
{
    let Some(there) = cell.checked_add(at) else {
        return Handle::Null;
    };
    get(cells, there)
}

// The member of a context, which has `current` in a cell and `accumulator` in the next.
fn member(fragment: &[u8], cells: &[u8], cell: usize) -> Handle
    ensures { result ≡ member_of fragment.now cells.now cell }
{
    if same(fragment, b"current") {
        return get(cells, cell);
    }
    if same(fragment, b"accumulator") {
        return cell_after(cells, cell, 1);
    }
    Handle::Null
}

// The item of a computed list.
fn item_named(fragment: &[u8], cells: &[u8], p: Parts) -> Handle
    ensures { ItemNamed fragment.now cells.now p result }
{
    let Some(at) = read_index(fragment) else {
        return Handle::Null;
    };
    if at >= p.count {
        return Handle::Null;
    }
    cell_after(cells, p.first, at)
}

// What a fragment names in a value that does not lie in the record; null where it names nothing.
fn part(fragment: &[u8], cells: &[u8], h: Handle) -> Handle
    ensures { PartNamed fragment.now cells.now h result }
{
    match h {
        Handle::Compound(p) => match p.form {
            Form::List => item_named(fragment, cells, p),
            Form::Context => member(fragment, cells, p.first),
            Form::Items | Form::Members => Handle::Null,
        },
        _ => Handle::Null,
    }
}

// The value at a path, which has the form that 01 wants of `var`, in a context; null where there is none.
pub fn value_at(path: &[u8], text: IndexedText, cells: &[u8], context: Handle) -> Handle
    ensures { Leads path.now text.entry.strings.now text.entry.table.now cells.now context result }
{
    let mut h = context;
    let mut at: usize = 0;
    while at < path.len() {
        if let Some(n) = place_of(h) {
            return Handle::from(find(&path[at..], text, n));
        }
        let end = fragment_end(path, at, b".");
        h = part(&path[at..end], cells, h);
        at = end + 1;
    }
    h
}

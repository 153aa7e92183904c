// `var`: the value at a path in a read text, by rows.
#![tactic(auto)]

pub mod index;
mod items;
pub mod members;
mod owner;

ghost use Rattle.std.specs.Prelude.{◌≡◌};
ghost use Rattle.paths.specs.Contract.{index_in, member_in, item_of, part_in, Leads};

use crate::index::read_index;
use crate::items::item;
use crate::members::row_named;
use name_index::text::IndexedText;
use octets::path::fragment_end;
use table::node::{Node, Rows, node_at};

// "on an object a fragment names a member"
fn member(fragment: &[u8], text: IndexedText, q: Rows) -> Node
    ensures { result ≡ member_in text.entry.table.now text.entry.strings.now fragment.now q.first q.count }
{
    match row_named(fragment, text, q) {
        None => Node::Null,
        Some(row) => node_at(text.table, row),
    }
}

// The item that a fragment names.
fn item_named(fragment: &[u8], text: IndexedText, q: Rows) -> Node
    ensures { result ≡ item_of text.entry.table.now q (index_in fragment.now) }
{
    let Some(at) = read_index(fragment) else {
        return Node::Null;
    };
    item(at, text, q)
}

// What a fragment names in a value; null where it names nothing.
fn part(fragment: &[u8], text: IndexedText, n: Node) -> Node
    ensures { result ≡ part_in text.entry.table.now text.entry.strings.now fragment.now n }
{
    match n {
        Node::Array(q) => item_named(fragment, text, q),
        Node::Object(q) => member(fragment, text, q),
        _ => Node::Null,
    }
}

// The value at a path, which has the form that 01 wants of `var`, from a value on; null where the path leads nowhere.
pub fn find(path: &[u8], text: IndexedText, from: Node) -> Node
    ensures { Leads path.now text.entry.table.now text.entry.strings.now from result }
{
    let mut n = from;
    let mut at: usize = 0;
    while at < path.len() {
        let end = fragment_end(path, at, b".");
        n = part(&path[at..end], text, n);
        at = end + 1;
    }
    n
}

// The types that the content of a sheet's member lists.
ghost use Rattle.std.specs.Prelude.{[], ◌≡◌};
ghost use Rattle.type_set.specs.Contract.{set_of};
ghost use Rattle.sheet.specs.ByRows.{with_type};
ghost use Rattle.sheet.specs.Contract.{Contains};
ghost use Rattle.sheet.specs.Inner.{NamesType, Collects, ListsWords};

use model::Ty;
use table::node::{Node, Rows, node_at, tail};
use table::string::bytes_of;
use text_types::type_named;
use type_set::set::{TypeSet, has, none, only, union};

// The type that a string names.
fn type_at(sheet_strings: &[u8], n: Node) -> Option<Ty>
    ensures { NamesType sheet_strings.now n result }
{
    let Node::String(s) = n else {
        return None;
    };
    type_named(bytes_of(sheet_strings, s))
}

// "distinct words": a type more, unless it is there.
fn with(s: TypeSet, k: Ty) -> Option<TypeSet>
    ensures { result ≡ with_type s k }
{
    if has(s, k) {
        return None;
    }
    Some(union(s, only(k)))
}

// The types of all items, each named once.
fn collect(sheet_table: &[u8], sheet_strings: &[u8], q: Rows) -> Option<TypeSet>
    ensures { Collects sheet_table.now sheet_strings.now (set_of []) q result }
{
    let mut set = none();
    let mut rest = q;
    while rest.count > 0 {
        let word = type_at(sheet_strings, node_at(sheet_table, rest.first))?;
        set = with(set, word)?;
        rest = tail(sheet_table, rest);
    }
    Some(set)
}

// "a non-empty array of distinct words"
fn words(sheet_table: &[u8], sheet_strings: &[u8], q: Rows) -> Option<TypeSet>
    ensures { ListsWords sheet_table.now sheet_strings.now q result }
{
    if q.count == 0 {
        return None;
    }
    collect(sheet_table, sheet_strings, q)
}

// The types of a content; none where it lists none.
#[tactic(auto, using(crate::proofs::Contents::words_content, crate::proofs::Contents::no_content))]
pub fn types_in(sheet_table: &[u8], sheet_strings: &[u8], n: Node) -> Option<TypeSet>
    ensures { Contains sheet_table.now sheet_strings.now n result }
{
    let Node::Array(q) = n else {
        return None;
    };
    words(sheet_table, sheet_strings, q)
}

// An index of the names of one object's members: a crit-bit trie in the entries behind the table's rows.
#![tactic(auto)]

ghost use Rattle.std.specs.Prelude.{◌≡◌, ◌+◌, ◌*◌, ◌≤◌, ◌<◌, length};
ghost use Rattle.model.specs.Limits.{max_values, max_text_bytes};
ghost use Rattle.name_index.specs.Bits.{symbol_at, bit_at};
ghost use Rattle.name_index.specs.Contract.{EnterRoom};
ghost use Rattle.name_index.specs.Contract as index;
ghost use Rattle.syntax.specs.Layout.{table_bytes};
ghost use Rattle.name_index.specs.Slots.{place, side, link_in, rank_in, Room, Entered};
ghost use Rattle.name_index.specs.Inner.{Common, Highest, Told, Ranked, ToldOf, WalkRoom, Descended, Stopped, NodeOf, RankOf, noded, Forked};
ghost use Rattle.area.specs.Words.{word_at};

pub mod find;
pub mod items;
pub mod text;

use area::{get_word, put_word};
use model::MAX_VALUES;
use syntax::{ENTRY_BYTES, ROW_BYTES};
use table::node::name_at;
use table::string::bytes_of;

// A link is below this; a word of an entry has one, and a part of a rank above it.
const LINKS: usize = 131072;

// The part of a rank in the first word is below this.
const LOW_RANKS: usize = 32768;

// Above every rank.
const NO_STOP: usize = 1073741824;

// Where a way down ends: the last link and where it lies. The ranks of the nodes passed are below `from`.
#[derive(Clone, Copy)]
struct Ended {
    at: usize,
    from: usize,
    link: usize,
}

// Enters a name, the `len` bytes at `start`, for the member in `row`, into the index of the object whose first member
// is in `first`. Tells whether the name is there already.
pub fn enter(
    table: &mut [u8],
    strings: &[u8],
    first: usize,
    row: usize,
    start: usize,
    len: usize,
) -> bool
    requires { EnterRoom table.old strings.now first row start len }
    ensures { index.Entered table.old strings.now first row start len result table.new }
{
    let name = &strings[start..start + len];
    enter_slot(table, strings, first - 1, row - 1, name)
}

// The same by slots: the slot of a member is the number of its row, less one.
fn enter_slot(table: &mut [u8], strings: &[u8], first: usize, row: usize, name: &[u8]) -> bool
    requires { Room table.old first row name.now }
    ensures { Entered table.old strings.now first row name.now result table.new }
{
    if row == first {
        put_word(table, entry_at(first), row * 2);
        return false;
    }
    let end = descend(table, name, first, row, NO_STOP);
    match compare(table, strings, end.link, name) {
        None => true,
        Some(rank) => {
            let at = slot(table, name, first, row, rank, end);
            let right = turn(name, rank);
            fork(table, at, row, rank, right);
            false
        }
    }
}

// Where the entry of a slot begins.
fn entry_at(row: usize) -> usize
    requires { row < max_values }
    ensures { result ≡ place row }
{
    MAX_VALUES * ROW_BYTES + row * ENTRY_BYTES
}

// Where the node of a rank belongs, after the way down that no rank stopped: at its end, if only lower ranks were passed.
fn slot(table: &[u8], name: &[u8], first: usize, row: usize, rank: usize, end: Ended) -> usize
    requires { WalkRoom table.now first row × Stopped table.now name.now first row 1073741824 end }
    ensures { Descended table.now name.now first row rank result }
{
    if end.from <= rank {
        return end.at;
    }
    let again = descend(table, name, first, row, rank);
    again.at
}

// Follows the bits of a name from the root through nodes of ranks below `stop`. That the left way asks for a leaf at once
// keeps the compiler from making one load of the two: a processor that foresees the way need not wait for the name's byte.
fn descend(table: &[u8], name: &[u8], first: usize, row: usize, stop: usize) -> Ended
    requires { WalkRoom table.now first row }
    ensures { Stopped table.now name.now first row stop result }
{
    let mut at = entry_at(first);
    let mut link = link_at(table, at);
    let mut from = 0;
    loop {
        let Some(node) = node_of(link, first, row) else {
            return Ended { at, from, link };
        };
        let entry = entry_at(node);
        let rank = rank_of(table, entry, from, stop);
        if stop <= rank {
            return Ended { at, from, link };
        }
        from = rank + 1;
        if !turn(name, rank) {
            at = entry;
            link = link_at(table, at);
            if link % 2 == 0 {
                return Ended { at, from, link };
            }
            continue;
        }
        at = entry + 4;
        link = link_at(table, at);
    }
}

// The row of the node to which a link leads, between two others.
fn node_of(link: usize, first: usize, row: usize) -> Option<usize>
    ensures { NodeOf link first row result }
{
    let node = link / 2;
    if link % 2 == 0 || node <= first || row <= node {
        return None;
    }
    Some(node)
}

// The link in a word of an entry.
fn link_at(table: &[u8], at: usize) -> usize
    requires { at + 4 ≤ length table.now }
    ensures { result ≡ link_in (word_at table.now at) }
{
    get_word(table, at) % LINKS
}

// The rank in an entry; `stop` if it is below `from`, and no `None`: so the search asks once, of both.
fn rank_of(table: &[u8], entry: usize, from: usize, stop: usize) -> usize
    requires { entry + 8 ≤ length table.now }
    ensures { RankOf (rank_in (word_at table.now entry) (word_at table.now (entry + 4))) from stop result }
{
    let low = get_word(table, entry) / LINKS;
    let high = get_word(table, entry + 4) / LINKS;
    let rank = low + high * LOW_RANKS;
    if rank < from {
        return stop;
    }
    rank
}

// Whether a name goes right at a node: its bit of the node's rank.
#[tactic(auto, unfolding(crate::specs::Bits::bit_at))]
fn turn(name: &[u8], rank: usize) -> bool
    ensures { result ≡ bit_at name.now rank }
{
    let s = symbol(name, rank / 16);
    (s >> (15 - rank % 16)) % 2 == 1
}

// The byte at a place of a name, and 256; 0 past its end.
#[tactic(auto, using(crate::proofs::Bits::symbol_past, crate::proofs::Bits::symbol_in))]
fn symbol(name: &[u8], p: usize) -> usize
    ensures { (result ≡ symbol_at name.now p) × (result < 512) }
{
    if name.len() <= p {
        return 0;
    }
    256 + usize::from(name[p])
}

// The first rank in which a name differs from that of the row of a leaf; none if the two are the same.
fn compare(table: &[u8], strings: &[u8], link: usize, name: &[u8]) -> Option<usize>
    requires { (table_bytes ≤ length table.now) × (length name.now ≤ max_text_bytes) }
    ensures { ToldOf table.now strings.now link max_values name.now result × Ranked result }
{
    let row = link / 2 + 1;
    critical(name, bytes_of(strings, name_at(table, row)))
}

// The first rank in which two names differ.
fn critical(a: &[u8], b: &[u8]) -> Option<usize>
    requires { length a.now ≤ max_text_bytes }
    ensures { Told a.now b.now result }
{
    let p = common(a, b);
    let x = symbol(a, p);
    let y = symbol(b, p);
    if x == y {
        return None;
    }
    Some(p * 16 + high(x, y))
}

// How many bytes at the front of two names are the same.
fn common(a: &[u8], b: &[u8]) -> usize
    ensures { Common a.now b.now result }
{
    for (p, byte) in a.iter().enumerate() {
        if b.len() <= p || *byte != b[p] {
            return p;
        }
    }
    a.len()
}

// The highest of sixteen bits in which two symbols differ, counted from the highest.
fn high(x: usize, y: usize) -> usize
    requires { (x < 512) × (y < 512) × (x ≡ y → ⊥) }
    ensures { Highest x y result }
{
    usize::leading_zeros(x ^ y) as usize - 48
}

// Puts the node of `row` at a link: the new leaf on its side, what hung there on the other.
fn fork(table: &mut [u8], at: usize, row: usize, rank: usize, right: bool)
    requires { (table_bytes ≤ length table.old) × (row < max_values) × (at + 4 ≤ length table.old) × (rank < 1073741824) }
    ensures { Forked table.old at row rank (side right) table.new }
{
    let word = get_word(table, at);
    let old = word % LINKS;
    put_word(table, at, word - old + (row * 2 + 1));
    if right {
        put_node(table, row, rank, old, row * 2);
    } else {
        put_node(table, row, rank, row * 2, old);
    }
}

// The entry of a node: its links and its rank.
fn put_node(table: &mut [u8], row: usize, rank: usize, left: usize, right: usize)
    requires { (table_bytes ≤ length table.old) × (row < max_values) × (rank < 1073741824) × (left < 131072) × (right < 131072) }
    ensures { table.new ≡ noded table.old row rank left right }
{
    let entry = entry_at(row);
    put_word(table, entry, left + rank % LOW_RANKS * LINKS);
    put_word(table, entry + 4, right + rank / LOW_RANKS * LINKS);
}

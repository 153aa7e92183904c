// Cells: a handle in eight bytes of the heap.
ghost use Rattle.std.specs.Prelude.{◌≡◌, ◌+◌, ◌*◌, ◌/◌, ◌%◌, ◌<◌};
ghost use Rattle.heap.specs.Contract.{cell_handle, stored, span_tag, parts_tag};
ghost use Rattle.heap.specs.Cells.{Packs, tag_at, packed, packed_of, of_packed};

use crate::handle::{Area, Form, Handle, compound, string};
use area::{get_word, put_word};

pub const CELL_BYTES: usize = 8;

// What a cell holds: a scalar or an instant, a string by its area, an array or object by the form of its parts.
#[derive(Clone, Copy)]
pub enum Tag {
    Null,
    False,
    True,
    Integer,
    Instant,
    RuleString,
    RecordString,
    Items,
    Members,
    List,
    Context,
}

impl From<Area> for Tag {
    ghost from_gives = { λ a t. t ≡ span_tag a };

    fn from(area: Area) -> Tag {
        match area {
            Area::Rule => Tag::RuleString,
            Area::Record => Tag::RecordString,
        }
    }
}

impl From<Form> for Tag {
    ghost from_gives = { λ f t. t ≡ parts_tag f };

    fn from(form: Form) -> Tag {
        match form {
            Form::Items => Tag::Items,
            Form::Members => Tag::Members,
            Form::List => Tag::List,
            Form::Context => Tag::Context,
        }
    }
}

// The tag of a number; null's for a number of none.
fn tag_at(n: usize) -> Tag
    ensures { result ≡ tag_at n }
{
    match n {
        1 => Tag::False,
        2 => Tag::True,
        3 => Tag::Integer,
        4 => Tag::Instant,
        5 => Tag::RuleString,
        6 => Tag::RecordString,
        7 => Tag::Items,
        8 => Tag::Members,
        9 => Tag::List,
        10 => Tag::Context,
        _ => Tag::Null,
    }
}

// A handle as its tag, a number of 32 bits and one of 24.
#[derive(Clone, Copy)]
pub struct Packed {
    pub tag: Tag,
    pub low: usize,
    pub high: usize,
}

fn numbers(tag: Tag, low: usize, high: usize) -> Packed
    ensures { result ≡ packed tag low high }
{
    Packed { tag, low, high }
}

// A number of 64 bits as its halves, and these as the number.
fn halves(tag: Tag, n: u64) -> Packed
    ensures { result ≡ packed tag (n % 4294967296) (n / 4294967296) }
{
    numbers(tag, (n % 4294967296) as usize, (n / 4294967296) as usize)
}

fn joined(low: usize, high: usize) -> u64
    requires { (low < 4294967296) × (high < 4294967296) }
    ensures { result ≡ low + high * 4294967296 }
{
    low as u64 + high as u64 * 4294967296
}

fn pack(h: Handle) -> Packed
    ensures { result ≡ packed_of h }
{
    match h {
        Handle::Null => numbers(Tag::Null, 0, 0),
        Handle::False => numbers(Tag::False, 0, 0),
        Handle::True => numbers(Tag::True, 0, 0),
        Handle::Integer(n) => halves(Tag::Integer, n),
        Handle::Instant(n) => halves(Tag::Instant, n),
        Handle::String(s) => numbers(Tag::from(s.area), s.start, s.size),
        Handle::Compound(p) => numbers(Tag::from(p.form), p.first, p.count),
    }
}

fn unpack(p: Packed) -> Handle
    requires { Packs p }
    ensures { result ≡ of_packed p }
{
    let Packed { tag, low, high } = p;
    match tag {
        Tag::Null => Handle::Null,
        Tag::False => Handle::False,
        Tag::True => Handle::True,
        Tag::Integer => Handle::Integer(joined(low, high)),
        Tag::Instant => Handle::Instant(joined(low, high)),
        Tag::RuleString => string(Area::Rule, low, high),
        Tag::RecordString => string(Area::Record, low, high),
        Tag::Items => compound(Form::Items, low, high),
        Tag::Members => compound(Form::Members, low, high),
        Tag::List => compound(Form::List, low, high),
        Tag::Context => compound(Form::Context, low, high),
    }
}

// The handle in a cell; null where there is no such cell.
#[tactic(auto, unfolding(crate::specs::Cells::cell_handle, crate::specs::Cells::cell_bytes))]
pub fn get(cells: &[u8], cell: usize) -> Handle
    ensures { result ≡ cell_handle cells.now cell }
{
    if cell >= cells.len() / CELL_BYTES {
        return Handle::Null;
    }
    let at = cell * CELL_BYTES;
    let low = get_word(cells, at);
    let high = get_word(cells, at + 4);
    unpack(numbers(tag_at(high / 16777216), low, high % 16777216))
}

// A handle into a cell; nothing where there is no such cell.
#[tactic(auto, using(crate::proofs::Packing::two_words, crate::proofs::Laws::Cells::small_tag), unfolding(crate::specs::Cells::stored, crate::specs::Cells::cell_bytes))]
pub fn put(cells: &mut [u8], cell: usize, h: Handle)
    ensures { cells.new ≡ stored cells.old cell h }
{
    if cell >= cells.len() / CELL_BYTES {
        return;
    }
    let at = cell * CELL_BYTES;
    let p = pack(h);
    put_word(cells, at, p.low);
    put_word(cells, at + 4, p.high % 16777216 + p.tag as usize * 16777216);
}

// Handles, and the handle of a value of the record.
ghost use Rattle.std.specs.Prelude.{◌≡◌};
ghost use Rattle.heap.specs.Contract.{span, parts, record_handle, row_handle};

use table::node::{Node, node_at};

// Which strings area: the rule's or the record's.
#[derive(Clone, Copy)]
pub enum Area {
    Rule,
    Record,
}

// A part of a strings area.
#[derive(Clone, Copy)]
pub struct Span {
    pub area: Area,
    pub start: usize,
    pub size: usize,
}

// What the parts of an array or object are: rows of a read array, or of a read object; cells of a computed list, or of a lambda's context.
#[derive(Clone, Copy)]
pub enum Form {
    Items,
    Members,
    List,
    Context,
}

// So many parts, from a row or a cell on.
#[derive(Clone, Copy)]
pub struct Parts {
    pub form: Form,
    pub first: usize,
    pub count: usize,
}

// A value, by value: a scalar or an instant itself, or where the bytes of a string or the parts of an array or object lie.
#[derive(Clone, Copy)]
pub enum Handle {
    Null,
    False,
    True,
    // The integer plus 2^53.
    Integer(u64),
    // Milliseconds since 0000-01-01.
    Instant(u64),
    String(Span),
    Compound(Parts),
}

pub fn string(area: Area, start: usize, size: usize) -> Handle
    ensures { result ≡ Handle.String (span area start size) }
{
    Handle::String(Span { area, start, size })
}

pub fn compound(form: Form, first: usize, count: usize) -> Handle
    ensures { result ≡ Handle.Compound (parts form first count) }
{
    Handle::Compound(Parts { form, first, count })
}

// The handle of a value of the record.
impl From<Node> for Handle {
    ghost from_gives = { λ n h. h ≡ record_handle n };

    fn from(n: Node) -> Handle {
        match n {
            Node::Null => Handle::Null,
            Node::False => Handle::False,
            Node::True => Handle::True,
            Node::Integer(i) => Handle::Integer(i),
            Node::String(s) => string(Area::Record, s.start, s.size),
            Node::Array(q) => compound(Form::Items, q.first, q.count),
            Node::Object(q) => compound(Form::Members, q.first, q.count),
        }
    }
}

// The value in a row of the record; null where its table has no such row.
pub fn load(record_table: &[u8], row: usize) -> Handle
    ensures { result ≡ row_handle record_table.now row }
{
    Handle::from(node_at(record_table, row))
}

// The parts of an array or object: the first, its name, and the others.
ghost use Rattle.std.specs.Prelude.{◌≡◌};
ghost use Rattle.heap.specs.Contract.{head_of, tail_of, label_of};
ghost use Rattle.heap.specs.Parts.{next_cell, next_of, context_label};

use crate::cell::{CELL_BYTES, get};
use crate::handle::{Form, Handle, Parts, load};
use table::node::{name_at, next_row};
use table::row::Span;

// What names a part: nothing in an array; a part of the record's strings; or a name of a lambda's context, which lies in no area.
#[derive(Clone, Copy)]
pub enum Label {
    Nothing,
    Name(Span),
    Current,
    Accumulator,
}

// The first part.
pub fn head(record_table: &[u8], cells: &[u8], p: Parts) -> Handle
    ensures { result ≡ head_of record_table.now cells.now p }
{
    match p.form {
        Form::Items | Form::Members => load(record_table, p.first),
        Form::List | Form::Context => get(cells, p.first),
    }
}

// The cell after a cell; the cell itself where there is no such cell.
#[tactic(auto, unfolding(crate::specs::Parts::next_cell, crate::specs::Cells::cell_bytes))]
fn next_cell(cells: &[u8], cell: usize) -> usize
    ensures { result ≡ next_cell cells.now cell }
{
    if cell >= cells.len() / CELL_BYTES {
        return cell;
    }
    cell + 1
}

// Where the part after the first lies.
fn next(record_table: &[u8], cells: &[u8], p: Parts) -> usize
    ensures { result ≡ next_of record_table.now cells.now p }
{
    match p.form {
        Form::Items | Form::Members => next_row(record_table, p.first),
        Form::List | Form::Context => next_cell(cells, p.first),
    }
}

// The parts after the first.
pub fn tail(record_table: &[u8], cells: &[u8], p: Parts) -> Parts
    ensures { result ≡ tail_of record_table.now cells.now p }
{
    Parts {
        form: p.form,
        first: next(record_table, cells, p),
        count: p.count.saturating_sub(1),
    }
}

// A context has `current` first and `accumulator` last.
fn context_label(count: usize) -> Label
    ensures { result ≡ context_label count }
{
    if count == 1 {
        return Label::Accumulator;
    }
    Label::Current
}

// The name of the first part.
pub fn name_of(record_table: &[u8], p: Parts) -> Label
    ensures { result ≡ label_of record_table.now p }
{
    match p.form {
        Form::Items | Form::List => Label::Nothing,
        Form::Members => Label::Name(name_at(record_table, p.first)),
        Form::Context => context_label(p.count),
    }
}

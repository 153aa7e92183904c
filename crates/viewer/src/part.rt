// The parts of a container: where the nth item or member's content lies.
ghost use Rattle.std.specs.Prelude.{◌≡◌, ◌<◌};
ghost use Rattle.viewer.specs.Contract.{part_seen};
ghost use Rattle.viewer.specs.Row.{end_of};
ghost use Rattle.viewer.specs.View.{next_within, nth_within};

use crate::row::{count_of, find_row};
use syntax::ARRAY_ROW;
use table::row::Row;

// The row after a row's value and all that it holds.
fn end_of(place: usize, r: Row) -> usize
    requires { place < 4294967296 }
    ensures { result ≡ end_of place r }
{
    if r.kind < ARRAY_ROW {
        place + 1
    } else {
        r.second
    }
}

// The place after the value at a place, if its row is there and has the form, and it ends within a container's end.
#[tactic(auto, using(crate::proofs::Walk::next_gone, crate::proofs::Walk::next_none, crate::proofs::Walk::next_is, crate::proofs::Seen::told_small))]
fn next(table: &[u8], end: usize, place: usize) -> Option<usize>
    ensures { result ≡ next_within table.now end place }
{
    let r = find_row(table, place)?;
    let ends = end_of(place, r);
    if ends <= end { Some(ends) } else { None }
}

// The place of the nth value from a place on, if all before it and it itself are such.
#[tactic(auto, using(crate::proofs::Walk::nth_more))]
fn part_from(table: &[u8], end: usize, place: usize, nth: usize) -> Option<usize>
    ensures { result ≡ nth_within table.now end nth place }
{
    let mut at = place;
    for _ in 0..nth {
        at = next(table, end, at)?;
    }
    next(table, end, at)?;
    Some(at)
}

// The nth part of the value at a place, from 0.
#[tactic(auto, using(crate::proofs::Walk::part_none, crate::proofs::Walk::part_past, crate::proofs::Walk::part_is, crate::proofs::Seen::told_small))]
pub fn find_part(table: &[u8], place: usize, nth: usize) -> Option<usize>
    ensures { result ≡ part_seen table.now place nth }
{
    let r = find_row(table, place)?;
    if count_of(r) <= nth {
        return None;
    }
    part_from(table, r.second, place + 1, nth)
}

// Values, with their parts. Every value takes one from the values that are left, so a value that shares its cells ends too.
ghost use Rattle.std.specs.Prelude.{◌+◌, ◌≤◌, ◌<◌, ◌≡◌};
ghost use Rattle.model.specs.Limits.{max_text_bytes};
ghost use Rattle.heap.specs.Unfold.{areas_of};
ghost use Rattle.writer.specs.Inner.{within, ValueWrites, PartsWrite};

use crate::part::{opening, put_front};
use crate::scalar::put_scalar;
use heap::areas::Areas;
use heap::handle::{Handle, Parts};
use heap::part::{head, tail};
use model::MAX_TEXT_BYTES;
use print::put::put_byte;

// How far the text goes, and how many values may follow.
#[derive(Clone, Copy)]
pub struct Progress {
    pub at: usize,
    pub left: usize,
}

// A text that goes so far, unless that is too far.
#[tactic(auto, using(crate::proofs::Pieces::within_stays), unfolding(model::specs::Limits::max_text_bytes))]
fn up_to(at: usize, left: usize) -> Option<Progress>
    ensures { result ≡ within at left }
{
    if at > MAX_TEXT_BYTES {
        return None;
    }
    Some(Progress { at, left })
}

// A value from `from` on, no deeper than `deep`; none is written whole that would be too large.
#[cycle(write_compound_write_parts_write_value)]
pub fn write_value(
    areas: Areas,
    output: &mut [u8],
    h: Handle,
    deep: usize,
    from: Progress,
) -> Option<Progress>
    ensures { ValueWrites (areas_of areas.entry) h deep from.at from.left output.old result output.new }
{
    if from.left == 0 {
        return None;
    }
    if from.at > MAX_TEXT_BYTES {
        return None;
    }
    let Handle::Compound(p) = h else {
        let end = put_scalar(areas, output, h, from.at);
        return up_to(end, from.left - 1);
    };
    write_compound(areas, output, p, deep, from)
}

// An array or object.
#[cycle(write_compound_write_parts_write_value)]
fn write_compound(
    areas: Areas,
    output: &mut [u8],
    p: Parts,
    deep: usize,
    from: Progress,
) -> Option<Progress>
    requires { (from.at ≤ max_text_bytes) × (1 ≤ from.left) }
    ensures { ValueWrites (areas_of areas.entry) (Handle.Compound p) deep from.at from.left output.old result output.new }
{
    if deep == 0 {
        return None;
    }
    let open = opening(p.form);
    put_byte(output, from.at, open);
    let inner = Progress {
        at: from.at + 1,
        left: from.left - 1,
    };
    let end = write_parts(areas, output, p, deep - 1, inner)?;
    // The closing byte is two after the opening one.
    put_byte(output, end.at, open + 2);
    up_to(end.at + 1, end.left)
}

// All parts of an array or object, with commas between them.
#[cycle(write_compound_write_parts_write_value)]
fn write_parts(
    areas: Areas,
    output: &mut [u8],
    p: Parts,
    deep: usize,
    from: Progress,
) -> Option<Progress>
    requires { from.at ≤ max_text_bytes + 1 }
    ensures { PartsWrite (areas_of areas.entry) p deep from.at from.left output.old result output.new }
{
    let mut rest = p;
    let mut comma = false;
    let mut here = from;
    while rest.count > 0 {
        let start = Progress {
            at: put_front(areas, output, rest, comma, here.at),
            left: here.left,
        };
        let part = head(areas.record_table, areas.cells, rest);
        here = write_value(areas, output, part, deep, start)?;
        rest = tail(areas.record_table, areas.cells, rest);
        comma = true;
    }
    up_to(here.at, here.left)
}

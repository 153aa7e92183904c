// The viewer for C: what a row of a table says. Each contract is one equation, for any bytes as a table and any place.
ghost use Rattle.std.specs.Prelude.{◌≡◌};
ghost use Rattle.jehvrukam.specs.Contract.{told, seen, span};
ghost use Rattle.jehvrukam.specs.View.{view_entry, view_part_entry, view_integer_entry, view_string_entry, view_name_entry};

use viewer::row::{count_of, integer_of};
use viewer::view::{part_at, row_at};

// The kind of the value at a place, and how many items or members it has.
#[unsafe(no_mangle)]
pub extern "C" fn jehvrukam_view(table: &[u8], place: u64, kind: &mut u64, count: &mut u64) -> u32
    ensures { told result (seen kind.new count.new) ≡ view_entry table.now place (seen kind.old count.old) }
{
    let Some(r) = row_at(table, place as usize) else {
        return 1;
    };
    *kind = r.kind as u64;
    *count = count_of(r) as u64;
    0
}

// The place of its nth item or member's content, from 0.
#[unsafe(no_mangle)]
pub extern "C" fn jehvrukam_view_part(table: &[u8], place: u64, nth: u64, part: &mut u64) -> u32
    ensures { told result part.new ≡ view_part_entry table.now place nth part.old }
{
    let Some(p) = part_at(table, place as usize, nth as usize) else {
        return 1;
    };
    *part = p as u64;
    0
}

// The integer at a place.
#[tactic(auto, using(crate::proofs::Viewing::no_integer_told))]
#[unsafe(no_mangle)]
pub extern "C" fn jehvrukam_view_integer(table: &[u8], place: u64, value: &mut i64) -> u32
    ensures { told result value.new ≡ view_integer_entry table.now place value.old }
{
    let Some(r) = row_at(table, place as usize) else {
        return 1;
    };
    if r.kind != 4 {
        return 1;
    }
    *value = integer_of(r);
    0
}

// Where the string at a place lies in the strings area.
#[tactic(auto, using(crate::proofs::Viewing::no_string_told))]
#[unsafe(no_mangle)]
pub extern "C" fn jehvrukam_view_string(
    table: &[u8],
    place: u64,
    start: &mut u64,
    length: &mut u64,
) -> u32
    ensures { told result (span start.new length.new) ≡ view_string_entry table.now place (span start.old length.old) }
{
    let Some(r) = row_at(table, place as usize) else {
        return 1;
    };
    if r.kind != 5 {
        return 1;
    }
    *start = r.first as u64;
    *length = r.second as u64;
    0
}

// Where the name of the member whose content is at a place lies in the strings area; in a read table 0 and 0 of no member.
#[unsafe(no_mangle)]
pub extern "C" fn jehvrukam_view_name(
    table: &[u8],
    place: u64,
    start: &mut u64,
    length: &mut u64,
) -> u32
    ensures { told result (span start.new length.new) ≡ view_name_entry table.now place (span start.old length.old) }
{
    let Some(r) = row_at(table, place as usize) else {
        return 1;
    };
    let name = r.name;
    *start = name.start as u64;
    *length = name.size as u64;
    0
}

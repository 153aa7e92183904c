// Values, with the items of arrays and the members of objects. Text, table and strings are lent one by one, and a place changes with each step: a struct
// of them would be made and taken apart at each call.
ghost use Rattle.std.specs.Prelude.{[], ◌<◌};
ghost use Rattle.model.specs.Limits.{max_values, max_nesting};
ghost use Rattle.syntax.specs.Read as reading;
ghost use Rattle.json_reader.specs.Inner.{Room, MembersRoom, ValueRead, ItemsRead, MembersRead, array_from, object_from};

use crate::list::{After, follow};
use crate::name::member_name;
use crate::row::{Label, empty, filled};
use crate::scalar::{read_literal, read_number, read_string};
use crate::step::{Cursor, place};
use model::refusal::ReadFault;
use scan::Fault;
use scan::token::{skip_white, stands, start};
use syntax::{ARRAY_ROW, OBJECT_ROW, Start};

// The value at `at`, for the row `row`: `used` bytes of strings were before it, `depth` arrays and objects are open, and it is the member `name`.
#[cycle(all_items_all_members_array_object_value)]
pub fn value(
    text: &[u8],
    at: usize,
    table: &mut [u8],
    row: usize,
    strings: &mut [u8],
    used: usize,
    depth: usize,
    name: Label,
) -> Result<Cursor, Fault>
    requires { Room text.now table.old strings.old at row used name.size }
    ensures { ValueRead name (λ f. reading.value f row depth) 0 text.now at row used table.old strings.old result table.new strings.new }
{
    match start(text, at, row, depth) {
        Start::NoValue => Err(Fault {
            reason: ReadFault::NotJson,
            at,
        }),
        Start::TooMuch => Err(Fault {
            reason: ReadFault::TooLarge,
            at,
        }),
        Start::Literal(word) => read_literal(text, at, table, row, used, name, word),
        Start::Minus => read_number(text, at + 1, true, table, row, used, name),
        Start::Digit => read_number(text, at, false, table, row, used, name),
        Start::Quote => read_string(text, at + 1, table, row, strings, used, name),
        Start::Bracket => array(text, at + 1, table, row, strings, used, depth, name),
        Start::Brace => object(text, at + 1, table, row, strings, used, depth, name),
    }
}

// What follows an opening bracket. An array and an object have a function each: each is proved against a parser of its own (`array_from`, `object_from`).
#[cycle(all_items_all_members_array_object_value)]
fn array(
    text: &[u8],
    at: usize,
    table: &mut [u8],
    row: usize,
    strings: &mut [u8],
    used: usize,
    depth: usize,
    name: Label,
) -> Result<Cursor, Fault>
    requires { Room text.now table.old strings.old at row used name.size × (row < max_values) × (depth < max_nesting) }
    ensures { ValueRead name (λ f. array_from f row depth) 1 text.now at row used table.old strings.old result table.new strings.new }
{
    let first = skip_white(text, at);
    if stands(text, first, b']') {
        return Ok(empty(table, row, ARRAY_ROW, name, first, used));
    }
    let end = all_items(text, first, table, row + 1, strings, used, depth + 1)?;
    Ok(filled(table, row, ARRAY_ROW, name, end))
}

// What follows an opening brace.
#[cycle(all_items_all_members_array_object_value)]
fn object(
    text: &[u8],
    at: usize,
    table: &mut [u8],
    row: usize,
    strings: &mut [u8],
    used: usize,
    depth: usize,
    name: Label,
) -> Result<Cursor, Fault>
    requires { Room text.now table.old strings.old at row used name.size × (row < max_values) × (depth < max_nesting) }
    ensures { ValueRead name (λ f. object_from f row depth) 1 text.now at row used table.old strings.old result table.new strings.new }
{
    let first = skip_white(text, at);
    if stands(text, first, b'}') {
        return Ok(empty(table, row, OBJECT_ROW, name, first, used));
    }
    let end = all_members(text, first, table, row + 1, strings, used, depth + 1)?;
    Ok(filled(table, row, OBJECT_ROW, name, end))
}

// One item or more, and the closing bracket.
#[cycle(all_items_all_members_array_object_value)]
fn all_items(
    text: &[u8],
    at: usize,
    table: &mut [u8],
    row: usize,
    strings: &mut [u8],
    used: usize,
    depth: usize,
) -> Result<Cursor, Fault>
    requires { Room text.now table.old strings.old at row used 0 }
    ensures { ItemsRead text.now at row used depth table.old strings.old result table.new strings.new }
{
    let bare = Label { start: 0, size: 0 };
    let mut here = place(at, row, used);
    loop {
        // A match, here and for members: `?` copies the cursor, and puts its offset together byte by byte.
        let end = match value(
            text, here.at, table, here.row, strings, here.used, depth, bare,
        ) {
            Ok(end) => end,
            Err(fault) => return Err(fault),
        };
        match follow(text, end, here.count, b']')? {
            After::Closed(last) => {
                return Ok(last);
            }
            After::More(next) => {
                here = next;
            }
        }
    }
}

// One member or more, and the closing brace.
#[cycle(all_items_all_members_array_object_value)]
fn all_members(
    text: &[u8],
    at: usize,
    table: &mut [u8],
    row: usize,
    strings: &mut [u8],
    used: usize,
    depth: usize,
) -> Result<Cursor, Fault>
    requires { MembersRoom text.now table.old strings.old at row used }
    ensures { MembersRead [] text.now at row used depth table.old strings.old result table.new strings.new }
{
    let mut here = place(at, row, used);
    loop {
        let member = member_name(text, here.at, table, row, here.row, strings, here.used)?;
        let name = member.name;
        let used = here.used + name.size;
        let end = match value(text, member.at, table, here.row, strings, used, depth, name) {
            Ok(end) => end,
            Err(fault) => return Err(fault),
        };
        match follow(text, end, here.count, b'}')? {
            After::Closed(last) => {
                return Ok(last);
            }
            After::More(next) => {
                here = next;
            }
        }
    }
}

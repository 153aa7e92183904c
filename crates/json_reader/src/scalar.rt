// Values that have no parts.
ghost use Rattle.std.specs.Prelude.{◌≡◌, ◌<◌};
ghost use Rattle.model.specs.Limits.{max_values};
ghost use Rattle.syntax.specs.Read as reading;
ghost use Rattle.json_reader.specs.Inner.{Room, ScalarRoom, RowRead, ValueRead, string_from, kind_of};

use crate::row::{Label, put_row};
use crate::step::{Cursor, place};
use chars::chars;
use scan::Fault;
use scan::number::number;
use scan::token::literal;
use syntax::{FALSE_ROW, INTEGER_ROW, NULL_ROW, STRING_ROW, TRUE_ROW, Word};

// The number of a literal's kind.
fn kind_of(word: Word) -> usize
    ensures { result ≡ kind_of word }
{
    match word {
        Word::NullWord => NULL_ROW,
        Word::FalseWord => FALSE_ROW,
        Word::TrueWord => TRUE_ROW,
    }
}

// The literal at `at`, for the value at `row`.
pub fn read_literal(
    text: &[u8],
    at: usize,
    table: &mut [u8],
    row: usize,
    used: usize,
    name: Label,
    word: Word,
) -> Result<Cursor, Fault>
    requires { ScalarRoom text.now table.old at row used name.size }
    ensures { RowRead name (reading.literal word) text.now at row used table.old result table.new }
{
    let end = literal(text, at, word)?;
    put_row(table, row, kind_of(word), name, 0, 0);
    Ok(place(end, row + 1, used))
}

// The number at `at`, after its sign.
pub fn read_number(
    text: &[u8],
    at: usize,
    negative: bool,
    table: &mut [u8],
    row: usize,
    used: usize,
    name: Label,
) -> Result<Cursor, Fault>
    requires { ScalarRoom text.now table.old at row used name.size }
    ensures { RowRead name (reading.int negative) text.now at row used table.old result table.new }
{
    let n = number(text, at, negative)?;
    let low = (n.biased % 4294967296) as usize;
    let high = (n.biased / 4294967296) as usize;
    put_row(table, row, INTEGER_ROW, name, low, high);
    Ok(place(n.at, row + 1, used))
}

// The string whose first character is at `at`.
pub fn read_string(
    text: &[u8],
    at: usize,
    table: &mut [u8],
    row: usize,
    strings: &mut [u8],
    used: usize,
    name: Label,
) -> Result<Cursor, Fault>
    requires { Room text.now table.old strings.old at row used name.size × (row < max_values) }
    ensures { ValueRead name string_from 0 text.now at row used table.old strings.old result table.new strings.new }
{
    let end = chars(text, at, strings, used)?;
    put_row(table, row, STRING_ROW, name, used, end.used - used);
    Ok(place(end.at + 1, row + 1, end.used))
}

// The decisions that reading a text makes byte by byte, as types that the definitions under specs/ and the code of the crates above share.
#![tactic(auto)]

use model::{MAX_INTEGER, MAX_TEXT_BYTES, MAX_VALUES};

// Sizes of the read form, as specs/Layout.antt has them.
pub const ROW_BYTES: usize = 16;

pub const ENTRY_BYTES: usize = 8;

pub const TABLE_BYTES: usize = MAX_VALUES * (ROW_BYTES + ENTRY_BYTES);

pub const STRINGS_BYTES: usize = MAX_TEXT_BYTES;

// The kinds of rows, as specs/Layout.antt numbers them.
pub const NULL_ROW: usize = 1;

pub const FALSE_ROW: usize = 2;

pub const TRUE_ROW: usize = 3;

pub const INTEGER_ROW: usize = 4;

pub const STRING_ROW: usize = 5;

pub const ARRAY_ROW: usize = 6;

pub const OBJECT_ROW: usize = 7;

// What is added to an integer in a row: 2^53.
pub const BIAS: u64 = MAX_INTEGER + 1;

// What stands where a value is to begin.
#[derive(Clone, Copy)]
pub enum Start {
    NoValue,
    TooMuch,
    Literal(Word),
    Minus,
    Digit,
    Quote,
    Bracket,
    Brace,
}

// The three words that are values.
#[derive(Clone, Copy)]
pub enum Word {
    TrueWord,
    FalseWord,
    NullWord,
}

// What stands after an item or a member.
#[derive(Clone, Copy)]
pub enum Separator {
    Comma,
    Close,
    Neither,
}

// What stands at a character of a string: for `Char`, so many bytes are to follow, the first of them from a lowest to a highest byte.
#[derive(Clone, Copy)]
pub enum Lead {
    Closing,
    Backslash,
    Never,
    Char(u8, u8, u8),
}

// What stands after a backslash: a letter for one byte, the `u` of a code unit, or neither.
#[derive(Clone, Copy)]
pub enum Escape {
    Letter(u8),
    Unicode,
    NoEscape,
}

// A UTF-16 code unit: a character by itself, or the first or second half of a pair.
#[derive(Clone, Copy)]
pub enum Unit {
    Plain,
    High,
    Low,
}

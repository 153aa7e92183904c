// The limits of document 01 and the plain types that the definitions under specs/ and the code of the crates above share.
#![tactic(auto)]

pub mod refusal;

// The limits that specs/Limits.antt has. Among the code they stand only here.
pub const MAX_TEXT_BYTES: usize = 16384;

pub const MAX_VALUES: usize = 1024;

pub const MAX_NESTING: usize = 32;

pub const MAX_STEPS: u64 = 1000;

pub const HEAP_CELLS: usize = 4096;

pub const MAX_INTEGER: u64 = 9007199254740991;

pub const MAX_SHEET_MEMBERS: usize = 256;

// A unit of `plusTime`.
#[derive(Clone, Copy)]
pub enum TimeUnit {
    Year,
    Month,
    Day,
    Hour,
}

// How two numbers are compared.
#[derive(Clone, Copy)]
pub enum Comparison {
    Greater,
    Less,
    GreaterOrEqual,
    LessOrEqual,
}

// What a comparison compares: integers (the four signs) or instants (the four date words).
#[derive(Clone, Copy)]
pub enum Domain {
    OnIntegers,
    OnInstants,
}

// A type, the paper's "word", in its order. "Instant is a word of the check only."
#[derive(Clone, Copy)]
pub enum Ty {
    Null,
    Boolean,
    Integer,
    String,
    Date,
    Day,
    Integers,
    Strings,
    Array,
    Object,
    Instant,
}

// A date of the Gregorian calendar: months and days count from 1.
#[derive(Clone, Copy)]
pub struct Date {
    pub year: u64,
    pub month: u64,
    pub day: u64,
}

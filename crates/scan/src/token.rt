// White space, literals, and what a single byte decides.
ghost use Rattle.std.specs.Prelude.{◌≡◌, drop};
ghost use Rattle.syntax.specs.Read as reading;
ghost use Rattle.syntax.specs.Tokens as tokens;
ghost use Rattle.scan.specs.Contract.{Skipped, Started, decimal_of, Separated, Stands, LiteralMeets};
ghost use Rattle.scan.specs.Inner.{Compared};

use crate::Fault;
use model::refusal::ReadFault;
use model::{MAX_NESTING, MAX_VALUES};
use syntax::{Separator, Start, Word};

// The offset after the white space at `at`.
#[tactic(auto, using(crate::proofs::Words::skip_more, crate::proofs::Words::skip_stop))]
pub fn skip_white(text: &[u8], at: usize) -> usize
    ensures { Skipped text.now at result }
{
    for i in at..text.len() {
        if !is_white(text[i]) {
            return i;
        }
    }
    at.max(text.len())
}

// By four comparisons, which compile to one test of a bit: a pattern of the four bytes compiles to three tests.
#[tactic(auto, unfolding(syntax::specs::Tokens::is_white))]
fn is_white(b: u8) -> bool
    ensures { result ≡ tokens.is_white b }
{
    b == b' ' || b == b'\t' || b == b'\n' || b == b'\r'
}

// What stands at `at`, where a value is to begin: `row` values began before it, `depth` arrays and objects deep.
#[tactic(auto, using(crate::proofs::Decisions::start_end))]
pub fn start(text: &[u8], at: usize, row: usize, depth: usize) -> Start
    ensures { Started text.now row depth at result }
{
    if text.len() <= at {
        return Start::NoValue;
    }
    start_of(row, depth, text[at])
}

// Each arm counts the value, so that what begins need not be told once more after that.
#[tactic(auto, unfolding(syntax::specs::Tokens::start_of, syntax::specs::Tokens::is_digit, syntax::specs::Tokens::within))]
fn start_of(row: usize, depth: usize, b: u8) -> Start
    ensures { result ≡ tokens.start_of row depth b }
{
    match b {
        b'"' => counted(row, Start::Quote),
        b'[' => counted(row, nested(depth, Start::Bracket)),
        b'{' => counted(row, nested(depth, Start::Brace)),
        b'0'..=b'9' => counted(row, Start::Digit),
        b'-' => counted(row, Start::Minus),
        b't' => counted(row, Start::Literal(Word::TrueWord)),
        b'f' => counted(row, Start::Literal(Word::FalseWord)),
        b'n' => counted(row, Start::Literal(Word::NullWord)),
        _ => Start::NoValue,
    }
}

#[tactic(auto, unfolding(model::specs::Limits::max_values, syntax::specs::Tokens::counted))]
fn counted(row: usize, kind: Start) -> Start
    ensures { result ≡ tokens.counted row kind }
{
    if MAX_VALUES <= row {
        Start::TooMuch
    } else {
        kind
    }
}

#[tactic(auto, unfolding(model::specs::Limits::max_nesting, syntax::specs::Tokens::nested))]
fn nested(depth: usize, kind: Start) -> Start
    ensures { result ≡ tokens.nested depth kind }
{
    if MAX_NESTING <= depth {
        Start::TooMuch
    } else {
        kind
    }
}

// A decimal digit's number.
#[tactic(auto, unfolding(syntax::specs::Tokens::is_digit, syntax::specs::Tokens::within, crate::specs::Contract::decimal_of))]
pub fn decimal_of(b: u8) -> Option<u8>
    ensures { result ≡ decimal_of b }
{
    match b {
        b'0'..=b'9' => Some(b - b'0'),
        _ => None,
    }
}

// What stands at `at`, after an item or a member.
#[tactic(auto, using(crate::proofs::Decisions::separator_end, crate::proofs::Decisions::separator_comma, crate::proofs::Decisions::separator_close, crate::proofs::Decisions::separator_neither))]
pub fn separator(text: &[u8], at: usize, close: u8) -> Separator
    ensures { Separated text.now close at result }
{
    if text.len() <= at {
        return Separator::Neither;
    }
    match text[at] {
        b',' => Separator::Comma,
        b if b == close => Separator::Close,
        _ => Separator::Neither,
    }
}

// Whether the byte `b` stands at `at`.
#[tactic(auto, using(crate::proofs::Decisions::stands_end, crate::proofs::Decisions::stands_at_lem))]
pub fn stands(text: &[u8], at: usize, b: u8) -> bool
    ensures { Stands text.now at b result }
{
    at < text.len() && text[at] == b
}

// The bytes of `word` at `at`: their end, or the fault of the first byte that differs.
#[tactic(auto, using(crate::proofs::Words::compare_more, crate::proofs::Words::compare_stop, crate::proofs::Words::compare_end))]
fn compare(text: &[u8], at: usize, word: &[u8]) -> Result<usize, Fault>
    ensures { Compared text.now at word.now result }
{
    for (i, b) in word.iter().enumerate() {
        if !stands(text, at + i, *b) {
            return Err(Fault {
                reason: ReadFault::NotJson,
                at: at + i,
            });
        }
    }
    Ok(at + word.len())
}

// The literal at `at`, and its end.
#[tactic(auto, using(crate::proofs::Words::literal_by_lem))]
pub fn literal(text: &[u8], at: usize, word: Word) -> Result<usize, Fault>
    ensures { LiteralMeets text.now at word (reading.literal word (drop at text.now) at) result }
{
    match word {
        Word::TrueWord => compare(text, at, b"true"),
        Word::FalseWord => compare(text, at, b"false"),
        Word::NullWord => compare(text, at, b"null"),
    }
}

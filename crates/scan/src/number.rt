// Numbers: integers within the limits.
ghost use Rattle.std.specs.Prelude.{◌≡◌, ◌≤◌, ◌<◌, length, drop, IfSome};
ghost use Rattle.model.specs.Limits.{max_integer};
ghost use Rattle.syntax.specs.Read as reading;
ghost use Rattle.scan.specs.Contract.{NumberMeets};
ghost use Rattle.scan.specs.Inner.{Signed, ending, Rest, digit_at};

use crate::Fault;
use crate::token::decimal_of;
use model::MAX_INTEGER;
use model::refusal::ReadFault;
use syntax::BIAS;

// An integer, plus 2^53, that ends at `at`.
#[derive(Clone, Copy)]
pub struct Numeral {
    pub at: usize,
    pub biased: u64,
}

#[tactic(auto, using(crate::proofs::Numerals::signed_up, crate::proofs::Numerals::signed_down), unfolding(model::specs::Limits::max_integer))]
fn signed(at: usize, negative: bool, n: u64) -> Numeral
    requires { n ≤ max_integer }
    ensures { Signed at negative n result }
{
    let biased = if negative { BIAS - n } else { BIAS + n };
    Numeral { at, biased }
}

// A fraction's point, or an exponent's e or E.
#[tactic(auto, unfolding(syntax::specs::Read::is_part, syntax::specs::Tokens::is_point, syntax::specs::Tokens::is_e))]
fn is_part(b: u8) -> bool
    ensures { result ≡ reading.is_part b }
{
    matches!(b, b'.' | b'e' | b'E')
}

// The end of the number `n` at `at`, where no digit of it stands.
#[tactic(auto, using(crate::proofs::Numerals::rest_part))]
fn ended(text: &[u8], at: usize, negative: bool, n: u64) -> Result<Numeral, Fault>
    requires { (at ≤ length text.now) × (n ≤ max_integer) }
    ensures { Rest text.now at (ending negative n (drop at text.now) at) result }
{
    if at < text.len() && is_part(text[at]) {
        return Err(Fault {
            reason: ReadFault::BadNumber,
            at,
        });
    }
    Ok(signed(at, negative, n))
}

// The digits from `at` on, after those that make `first`.
#[tactic(auto, using(crate::proofs::Numerals::count_end), unfolding(model::specs::Limits::max_integer))]
fn digits(text: &[u8], at: usize, negative: bool, first: u64) -> Result<Numeral, Fault>
    requires { (at ≤ length text.now) × (first ≤ max_integer) }
    ensures { Rest text.now at (reading.digits negative first (drop at text.now) at) result }
{
    let mut n = first;
    for i in at..text.len() {
        let Some(d) = decimal_of(text[i]) else {
            return ended(text, i, negative, n);
        };
        n = n * 10 + u64::from(d);
        if MAX_INTEGER < n {
            return Err(Fault {
                reason: ReadFault::BadNumber,
                at: i,
            });
        }
    }
    Ok(signed(text.len(), negative, n))
}

// The number of the decimal digit at `at`, if one stands there.
#[tactic(auto, unfolding(crate::specs::Inner::digit_at))]
fn digit_at(text: &[u8], at: usize) -> Option<u8>
    ensures is { result ≡ digit_at text.now at }
    ensures inside { IfSome result (λ d. at < length text.now) }
{
    decimal_of(*text.get(at)?)
}

// The integer at `at`, its sign having been read.
#[tactic(auto, using(crate::proofs::Numerals::number_not, crate::proofs::Numerals::number_zero), unfolding(model::specs::Limits::max_integer))]
pub fn number(text: &[u8], at: usize, negative: bool) -> Result<Numeral, Fault>
    ensures { NumberMeets text.now at (reading.int negative (drop at text.now) at) result }
{
    match digit_at(text, at) {
        None => Err(Fault {
            reason: ReadFault::NotJson,
            at,
        }),
        Some(0) => ended(text, at + 1, negative, 0),
        Some(first) => digits(text, at + 1, negative, u64::from(first)),
    }
}

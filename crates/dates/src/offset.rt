// Offsets from UTC.
ghost use Rattle.std.specs.Prelude.{◌≡◌, ◌≤◌, IfSome, nat_abs};
ghost use Rattle.model.specs.DateText.{offset_of, offset_digits, to_utc};

use crate::pattern::{digit_at, like, starts_like, two_digits};

// The milliseconds of an offset, if it is one.
fn offset_of(hours: u64, minutes: u64) -> Option<u64>
    ensures value { result ≡ offset_of hours minutes }
    ensures small { IfSome result (λ k. k ≤ 86340000) }
{
    if hours > 23 || minutes > 59 {
        return None;
    }
    Some((hours * 60 + minutes) * 60000)
}

// What follows the sign.
#[tactic(auto, unfolding(model::specs::DateText::offset_digits))]
fn offset_digits(text: &[u8]) -> Option<u64>
    ensures value { result ≡ offset_digits text.now }
    ensures small { IfSome result (λ k. k ≤ 86340000) }
{
    if like(b"0", text) {
        return offset_of(digit_at(text, 0), 0);
    }
    if like(b"00", text) {
        return offset_of(two_digits(text, 0), 0);
    }
    if like(b"000", text) {
        return offset_of(digit_at(text, 0), two_digits(text, 1));
    }
    if like(b"0000", text) {
        return offset_of(two_digits(text, 0), two_digits(text, 2));
    }
    if like(b"0:00", text) {
        return offset_of(digit_at(text, 0), two_digits(text, 2));
    }
    if like(b"00:00", text) {
        return offset_of(two_digits(text, 0), two_digits(text, 3));
    }
    None
}

// What follows a time: the milliseconds that lead from local time to UTC. Clocks at + run ahead, clocks at - behind; no offset means Z.
#[tactic(auto, using(crate::proofs::Shapes::no_offset), unfolding(model::specs::DateText::to_utc))]
pub fn to_utc(text: &[u8]) -> Option<i64>
    ensures value { result ≡ to_utc text.now }
    ensures small { IfSome result (λ z. nat_abs z ≤ 86340000) }
{
    if text.is_empty() || like(b"Z", text) {
        return Some(0);
    }
    if starts_like(b"+", text) {
        return offset_digits(&text[1..]).map(|k| 0 - k as i64);
    }
    if starts_like(b"-", text) {
        return offset_digits(&text[1..]).map(|k| k as i64);
    }
    None
}

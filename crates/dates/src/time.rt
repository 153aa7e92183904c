// The forms with a time.
ghost use Rattle.std.specs.Prelude.{◌≡◌, true, ◌≤◌};
ghost use Rattle.model.specs.Bytes.{ascii};
ghost use Rattle.model.specs.DateText.{starts_like, after_seconds, is_time, time_text};
ghost use Rattle.model.specs.DateText as reading;
ghost use Rattle.calendar.specs.Contract.{date_result};

use crate::day::date_in;
use crate::offset::to_utc;
use crate::pattern::{digit_at, digit_run, starts_like, two_digits};
use calendar::instant::{DateFault, Instant, midnight};

const MAX_FRACTION_DIGITS: usize = 9;

// The instant of a local time in milliseconds since 0000-01-01, and what follows its last digit.
fn zoned(local: u64, text: &[u8]) -> Result<Instant, DateFault>
    requires { local ≤ 1000000000000000 }
    ensures { date_result result ≡ reading.zoned local text.now }
{
    let correction = to_utc(text).ok_or(DateFault::BadDate)?;
    Ok(Instant::new(local as i64 + Instant::EARLIEST + correction)?)
}

// The first three digits of a fraction; 0 for one that is not there.
#[tactic(auto, using(crate::proofs::Shapes::digit_default))]
fn milliseconds(fraction: &[u8]) -> u64
    ensures { (result ≡ reading.milliseconds fraction.now) × (result ≤ 22977) }
{
    digit_at(fraction, 0) * 100 + digit_at(fraction, 1) * 10 + digit_at(fraction, 2)
}

// The instant of a local time in whole seconds, and what follows them.
fn after_seconds(local: u64, text: &[u8]) -> Result<Instant, DateFault>
    requires { local ≤ 999999999900000 }
    ensures { date_result result ≡ after_seconds local text.now }
{
    if !starts_like(b".", text) {
        return zoned(local, text);
    }
    let digits = digit_run(&text[1..]);
    if digits < 1 || digits > MAX_FRACTION_DIGITS {
        return Err(DateFault::BadDate);
    }
    let (fraction, rest) = text[1..].split_at(digits);
    zoned(local + milliseconds(fraction), rest)
}

fn is_time(hour: u64, minute: u64, second: u64) -> bool
    ensures { result ≡ is_time hour minute second }
{
    hour <= 23 && minute <= 59 && second <= 59
}

// A text that begins with the shape 0000-00-00T00:00:00.
#[tactic(auto, using(crate::proofs::Times::no_day))]
pub fn read_time(text: &[u8]) -> Result<Instant, DateFault>
    requires { starts_like (ascii "0000-00-00T00:00:00") text.now ≡ true }
    ensures { date_result result ≡ time_text text.now }
{
    let hour = two_digits(text, 11);
    let minute = two_digits(text, 14);
    let second = two_digits(text, 17);
    if !is_time(hour, minute, second) {
        return Err(DateFault::BadDate);
    }
    let day = midnight(date_in(text))?;
    let time = ((hour * 60 + minute) * 60 + second) * 1000;
    after_seconds(day.since_year_0() + time, &text[19..])
}

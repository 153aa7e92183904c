// The calendar for callers in C: what the host's tests and benchmarks link. Not a part of the product's library.
#![tactic(auto)]

ghost use Rattle.std.specs.Prelude.{◌≡◌, length};
ghost use Rattle.model.specs.DateText.{day_text, date_text};
ghost use Rattle.model.specs.Result.{result_number};
ghost use Rattle.calendar.specs.Contract.{date_result, shifted};
ghost use Rattle.test_calendar.specs.Contract.{milliseconds_of, unit_of, shift_number, shift_ms, text_number, text_bytes};

use calendar::instant::{DateFault, Instant};
use instants::shift::shift;
use instants::text::InstantText;
use model::TimeUnit;
use model::refusal::Fault;

// 01, What comes back.
const DONE: u32 = 0;

const INVALID_ARGUMENT: u32 = 1;

// An answer's number, and its milliseconds, 0 where it has none.
fn put_date(answer: Result<Instant, DateFault>, ms: &mut i64) -> u32
    ensures { (result ≡ result_number (date_result answer)) × (ms.new ≡ milliseconds_of (date_result answer)) }
{
    match answer {
        Ok(t) => {
            *ms = t.milliseconds();
            DONE
        }
        Err(fault) => {
            *ms = 0;
            u32::from(Fault::from(fault))
        }
    }
}

// A text of one of the nineteen forms: 0 and the instant's milliseconds, or 8 or 9 and 0.
#[unsafe(no_mangle)]
pub extern "C" fn calendar_read_date(text: &[u8], ms: &mut i64) -> u32
    ensures { (result ≡ result_number (date_text text.now)) × (ms.new ≡ milliseconds_of (date_text text.now)) }
{
    put_date(dates::read_date(text), ms)
}

// Of one of the first three.
#[unsafe(no_mangle)]
pub extern "C" fn calendar_read_day(text: &[u8], ms: &mut i64) -> u32
    ensures { (result ≡ result_number (day_text text.now)) × (ms.new ≡ milliseconds_of (day_text text.now)) }
{
    put_date(dates::read_day(text), ms)
}

fn unit_of(number: u32) -> Option<TimeUnit>
    ensures { result ≡ unit_of number }
{
    match number {
        0 => Some(TimeUnit::Year),
        1 => Some(TimeUnit::Month),
        2 => Some(TimeUnit::Day),
        3 => Some(TimeUnit::Hour),
        _ => None,
    }
}

// The instant so many milliseconds from 1970-01-01, shifted.
fn shift_from(ms: i64, amount: i64, unit: TimeUnit) -> Result<Instant, DateFault>
    ensures { date_result result ≡ shifted ms amount unit }
{
    Ok(shift(Instant::new(ms)?, amount, unit)?)
}

// The instant `from`, shifted by an amount of a unit (0 year, 1 month, 2 day, 3 hour): 0 and its milliseconds, or 9 and 0; 1 and 0 for another unit.
#[unsafe(no_mangle)]
pub extern "C" fn calendar_shift(from: i64, amount: i64, unit: u32, ms: &mut i64) -> u32
    ensures { (result ≡ shift_number from amount unit) × (ms.new ≡ shift_ms from amount unit) }
{
    let Some(unit) = unit_of(unit) else {
        *ms = 0;
        return INVALID_ARGUMENT;
    };
    let shifted = shift_from(from, amount, unit);
    put_date(shifted, ms)
}

// An instant's text into an area of 24 bytes: 0; 1 for an area of another length and 9 for an instant outside the range, the area as it was.
#[unsafe(no_mangle)]
#[tactic(auto, using(crate::proofs::Entry::no_area, crate::proofs::Entry::text_out, crate::proofs::Entry::text_in))]
pub extern "C" fn calendar_text(ms: i64, text: &mut [u8]) -> u32
    ensures { (result ≡ text_number ms text.old) × (text.new ≡ text_bytes ms text.old) }
{
    let Some(area) = text.as_mut_array::<24>() else {
        return INVALID_ARGUMENT;
    };
    let Ok(t) = Instant::new(ms) else {
        return u32::from(Fault::OutOfRange);
    };
    let InstantText { bytes } = InstantText::from(t);
    *area = bytes;
    DONE
}

// Days and dates. A day is counted from 0000-01-01.
ghost use Rattle.std.specs.Prelude.{◌≡◌, ◌+◌, ◌-◌, ◌/◌, ◌<◌, ◌≤◌};
ghost use Rattle.model.specs.Calendar.{is_valid, months, sum_first, year_days, year_start, day_number, date_of_day};
ghost use Rattle.model.specs.Instant.{ms_per_day};
ghost use Rattle.days.specs.Contract.{day_answer, month_answer, WithinYears};

use crate::month::{is_leap, month_days};
use model::Date;

pub const MS_PER_DAY: u64 = 86400000;

// The months of the years 0000 to 9999.
const RANGE_MONTHS: u64 = 12 * 10000;

// Why a date has no day: there is no such date, or its year is past 9999.
#[derive(Clone, Copy)]
pub enum DayFault {
    NoDate,
    Late,
}

// Whether there is such a date.
pub fn is_valid(date: Date) -> bool
    ensures { result ≡ is_valid date }
{
    let Date { year, month, day } = date;
    1 <= month && month <= 12 && 1 <= day && day <= month_days(year, month)
}

// The days of all years before a year: 365 each, and one more for each leap year.
#[tactic(auto, using(model::proofs::Laws::Calendar::closed_form))]
fn year_start(year: u64) -> u64
    requires { year ≤ 10000000000 }
    ensures { result ≡ year_start year }
{
    365 * year + year.div_ceil(4) + year.div_ceil(400) - year.div_ceil(100)
}

// The days of a year.
#[tactic(auto, using(model::proofs::Laws::Calendar::year_days_row))]
fn year_days(year: u64) -> u64
    ensures { result ≡ year_days year }
{
    365 + u64::from(is_leap(year))
}

// The days of a year's months before a month.
#[tactic(auto, using(model::proofs::Laws::Calendar::month_bound, model::proofs::Laws::Calendar::sum_next), unfolding(model::specs::Calendar::sum_first))]
fn months_before(year: u64, month: u64) -> u64
    requires { (1 ≤ month) × (month ≤ 12) }
    ensures { (result ≡ sum_first (month - 1) (months year)) × (result ≤ 372) }
{
    let mut sum = 0;
    for m in 1..month {
        sum += month_days(year, m);
    }
    sum
}

// The day of a valid date.
#[tactic(auto, using(model::proofs::Laws::Calendar::day_bound, model::proofs::Laws::Calendar::valid_parts))]
fn day_number(date: Date) -> u64
    requires { WithinYears date }
    ensures { result ≡ day_number date }
{
    year_start(date.year) + months_before(date.year, date.month) + (date.day - 1)
}

// The day of any date.
pub fn day_of(date: Date) -> Result<u64, DayFault>
    ensures { result ≡ day_answer date }
{
    if !is_valid(date) {
        return Err(DayFault::NoDate);
    }
    if date.year > 9999 {
        return Err(DayFault::Late);
    }
    Ok(day_number(date))
}

// The first day of any month, counted from 0000-01; none for a month of a year past 9999.
pub fn month_start(month: u64) -> Option<u64>
    ensures { result ≡ month_answer month }
{
    if month >= RANGE_MONTHS {
        return None;
    }
    Some(day_number(Date {
        year: month / 12,
        month: month % 12 + 1,
        day: 1,
    }))
}

// The date of day n of a year, from 0: months are taken off.
#[tactic(auto, unfolding(model::specs::Calendar::sum_first))]
fn date_in_year(year: u64, n: u64) -> Date
    requires { n < year_days year }
    ensures { result ≡ date_of_day (year_start year + n) }
{
    let mut month = 1;
    let mut left = n;
    while let Some(rest) = left.checked_sub(month_days(year, month)) {
        left = rest;
        month += 1;
    }
    let day = left + 1;
    Date { year, month, day }
}

// The date of a day. No year has more than 366 days, so that the year is n / 366 or a later one. (Years are taken off, since year_start has three divisions.)
#[tactic(auto, using(crate::proofs::Dates::year_next, crate::proofs::Dates::year_low, crate::proofs::Dates::year_high, model::proofs::Laws::Calendar::year_days_row))]
fn date_of_day(n: u64) -> Date
    requires { n ≤ 1000000000000 }
    ensures { result ≡ date_of_day n }
{
    let mut year = n / 366;
    let mut left = n - year_start(year);
    // A range would need a bound, and an answer past it, which is never reached.
    while let Some(rest) = left.checked_sub(year_days(year)) {
        left = rest;
        year += 1;
    }
    date_in_year(year, left)
}

// The date of the day on which lies the instant so many milliseconds from 0000-01-01.
pub fn date_at(since: u64) -> Date
    ensures { result ≡ date_of_day (since / ms_per_day) }
{
    date_of_day(since / MS_PER_DAY)
}

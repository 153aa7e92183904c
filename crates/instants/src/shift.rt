// Shifts: an instant moved by an amount of years, months, days or hours.
ghost use Rattle.std.specs.Prelude.{◌≡◌, ◌<◌, ◌≤◌, pos, ◌+ℤ◌, ◌*ℤ◌};
ghost use Rattle.model.specs.Instant.{ms_per_day, ranged, from_year0};
ghost use Rattle.model.specs.Shift.{moved_by_months};
ghost use Rattle.calendar.specs.Contract.{instant_result, shifted};
ghost use Rattle.instants.specs.Inner.{latest_since_year0, Moved, in_month};

use calendar::instant::{Instant, OutOfRange};
use days::day::{MS_PER_DAY, date_at, month_start};
use model::{Date, TimeUnit};

const MS_PER_HOUR: u64 = MS_PER_DAY / 24;

// A count, so many times `unit` on, or back for an amount below 0.
#[tactic(auto, using(crate::proofs::Moves::far_sum, crate::proofs::Moves::near_sum))]
fn moved(count: u64, amount: i64, unit: u64) -> Result<u64, OutOfRange>
    requires { (count ≤ latest_since_year0) × (unit ≤ ms_per_day) }
    ensures { Moved (pos count +ℤ amount *ℤ pos unit) result }
{
    // 128 bits hold any product and sum, so that one test is enough.
    let to = i128::from(count) + i128::from(amount) * i128::from(unit);
    u64::try_from(to).map_err(|_| OutOfRange)
}

// The instant `since` milliseconds from 0000-01-01, moved by so many times `unit` milliseconds.
#[tactic(auto, using(crate::proofs::Shifts::time_far, crate::proofs::Shifts::time_near))]
fn shift_time(since: u64, amount: i64, unit: u64) -> Result<Instant, OutOfRange>
    requires { (since ≤ latest_since_year0) × (unit ≤ ms_per_day) }
    ensures { instant_result result ≡ ranged (from_year0 since +ℤ amount *ℤ pos unit) }
{
    Instant::from_year_0(moved(since, amount, unit)?)
}

// The instant `days` days and `time` milliseconds after the start of a month; days past the month's end run on.
#[tactic(auto, using(days::specs::Laws::told_month))]
fn in_month(month: u64, days: u64, time: u64) -> Result<Instant, OutOfRange>
    requires { (days ≤ 30) × (time < ms_per_day) }
    ensures { instant_result result ≡ in_month month days time }
{
    let first = month_start(month).ok_or(OutOfRange)?;
    Instant::from_year_0((first + days) * MS_PER_DAY + time)
}

// Moved by so many times `unit` months: the day of the month and the time of day stay.
#[tactic(auto, using(model::proofs::Laws::Calendar::dated, crate::proofs::Shifts::months_far, crate::proofs::Shifts::months_near))]
fn shift_months(since: u64, amount: i64, unit: u64) -> Result<Instant, OutOfRange>
    requires { (since ≤ latest_since_year0) × (1 ≤ unit) × (unit ≤ 12) }
    ensures { instant_result result ≡ moved_by_months since (amount *ℤ pos unit) }
{
    let Date { year, month, day } = date_at(since);
    let to = moved(year * 12 + (month - 1), amount, unit)?;
    in_month(to, day - 1, since % MS_PER_DAY)
}

// An instant, shifted; 9 where it or the shifted one is outside the range.
pub fn shift(t: Instant, amount: i64, unit: TimeUnit) -> Result<Instant, OutOfRange>
    ensures { instant_result result ≡ shifted t.ms amount unit }
{
    let since = Instant::new(t.milliseconds())?.since_year_0();
    match unit {
        TimeUnit::Year => shift_months(since, amount, 12),
        TimeUnit::Month => shift_months(since, amount, 1),
        TimeUnit::Day => shift_time(since, amount, MS_PER_DAY),
        TimeUnit::Hour => shift_time(since, amount, MS_PER_HOUR),
    }
}

// The dates in the first three forms.
ghost use Rattle.std.specs.Prelude.{◌≡◌, ◌≤◌};
ghost use Rattle.model.specs.DateText.{year_in, date_in, last_of_month};
ghost use Rattle.model.specs.DateText as reading;
ghost use Rattle.calendar.specs.Contract.{date_result};

use crate::pattern::two_digits;
use calendar::instant::{DateFault, Instant, midnight};
use days::month::month_days;
use model::Date;

pub fn year_in(text: &[u8]) -> u64
    ensures { (result ≡ year_in text.now) × (result ≤ 300000) }
{
    two_digits(text, 0) * 100 + two_digits(text, 2)
}

// The date in YYYY-MM-DD.
pub fn date_in(text: &[u8]) -> Date
    ensures { result ≡ date_in text.now }
{
    Date {
        year: year_in(text),
        month: two_digits(text, 5),
        day: two_digits(text, 8),
    }
}

// The start of a month's last day.
pub fn month_end(year: u64, month: u64) -> Result<Instant, DateFault>
    ensures { date_result result ≡ reading.midnight (last_of_month year month) }
{
    let day = month_days(year, month);
    midnight(Date { year, month, day })
}

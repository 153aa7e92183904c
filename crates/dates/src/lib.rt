// Date texts: the instant that a text of one of the nineteen forms stands for.
#![tactic(auto)]

mod day;
mod offset;
mod pattern;
mod time;

ghost use Rattle.std.specs.Prelude.{◌≡◌};
ghost use Rattle.model.specs.DateText.{day_text, date_text};
ghost use Rattle.calendar.specs.Contract.{date_result};

use crate::day::{date_in, month_end, year_in};
use crate::pattern::{like, starts_like, two_digits};
use crate::time::read_time;
use calendar::instant::{DateFault, Instant, midnight};
use model::Date;

// A text of one of the first three forms: YYYY, YYYY-MM, YYYY-MM-DD. Inlined, so that no Result goes by memory from call to call.
#[inline(always)]
#[tactic(auto, unfolding(model::specs::DateText::day_text))]
pub fn read_day(text: &[u8]) -> Result<Instant, DateFault>
    ensures { date_result result ≡ day_text text.now }
{
    if like(b"0000", text) {
        return midnight(Date {
            year: year_in(text),
            month: 12,
            day: 31,
        });
    }
    if like(b"0000-00", text) {
        return month_end(year_in(text), two_digits(text, 5));
    }
    if like(b"0000-00-00", text) {
        return midnight(date_in(text));
    }
    Err(DateFault::BadDate)
}

// A text of any of the nineteen.
#[tactic(auto, unfolding(model::specs::DateText::date_text))]
pub fn read_date(text: &[u8]) -> Result<Instant, DateFault>
    ensures { date_result result ≡ date_text text.now }
{
    if starts_like(b"0000-00-00T00:00:00", text) {
        return read_time(text);
    }
    read_day(text)
}

// An instant's text, as 2020-03-02T00:00:00.000Z.
ghost use Rattle.std.specs.Prelude.{◌≡◌};
ghost use Rattle.model.specs.Bytes.{digit_byte};
ghost use Rattle.model.specs.InstantText.{instant_text};
ghost use Rattle.instants.specs.Inner.{text_of};

use calendar::instant::Instant;
use days::day::{MS_PER_DAY, date_at};
use model::Date;

// 01, Writing: "An instant's text is a fixed record of 24 bytes".
#[derive(Clone, Copy)]
pub struct InstantText {
    pub bytes: [u8; 24],
}

// The last decimal digit of a number.
pub fn digit(n: u64) -> u8
    ensures { result ≡ digit_byte n }
{
    b'0' + (n % 10) as u8
}

// The text of a date and a time of day in milliseconds.
fn text_of(date: Date, time: u64) -> InstantText
    ensures { result.bytes ≡ text_of date time }
{
    let Date { year, month, day } = date;
    let hour = time / 3600000;
    let minute = time / 60000 % 60;
    let second = time / 1000 % 60;
    let ms = time % 1000;
    let bytes = [
        digit(year / 1000),
        digit(year / 100),
        digit(year / 10),
        digit(year),
        b'-',
        digit(month / 10),
        digit(month),
        b'-',
        digit(day / 10),
        digit(day),
        b'T',
        digit(hour / 10),
        digit(hour),
        b':',
        digit(minute / 10),
        digit(minute),
        b':',
        digit(second / 10),
        digit(second),
        b'.',
        digit(ms / 100),
        digit(ms / 10),
        digit(ms),
        b'Z',
    ];
    InstantText { bytes }
}

// The text of an instant. (Of a year past 9999, which no instant in range has, the last four digits.)
impl From<Instant> for InstantText {
    ghost from_gives = { λ t r. r.bytes ≡ instant_text t.ms };

    fn from(t: Instant) -> InstantText {
        let since = t.since_year_0();
        text_of(date_at(since), since % MS_PER_DAY)
    }
}

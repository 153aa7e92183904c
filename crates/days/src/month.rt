// The lengths of the months.
ghost use Rattle.std.specs.Prelude.{◌≡◌};
ghost use Rattle.model.specs.Calendar.{is_leap, month_days};

// The days of each month: of a common year, and of a leap year.
const MONTH_DAYS: [[u8; 12]; 2] = [
    [31, 28, 31, 30, 31, 30, 31, 31, 30, 31, 30, 31],
    [31, 29, 31, 30, 31, 30, 31, 31, 30, 31, 30, 31],
];

pub fn is_leap(year: u64) -> bool
    ensures { result ≡ is_leap year }
{
    year % 4 == 0 && (year % 100 != 0 || year % 400 == 0)
}

// The days of a month from 1 to 12. (Month 0 is taken as January, one after the twelfth as a month without days.)
#[tactic(auto, unfolding(model::specs::Calendar::months))]
pub fn month_days(year: u64, month: u64) -> u64
    ensures { result ≡ month_days year month }
{
    let row = usize::from(is_leap(year));
    let place = month.saturating_sub(1) as usize;
    MONTH_DAYS[row].get(place).copied().map_or(0, u64::from)
}

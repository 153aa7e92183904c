// Instants: milliseconds from 1970-01-01, within the years 0000 to 9999.
ghost use Rattle.std.specs.Prelude.{◌≡◌};
ghost use Rattle.model.specs.Instant.{earliest, latest, ranged, from_year0, since_year0};
ghost use Rattle.model.specs.DateText as reading;
ghost use Rattle.calendar.specs.Contract.{instant_result, date_result, day_fault, fault_of};
ghost use Rattle.calendar.specs.declared.instant.DateFault.TheVariants as Dated;
ghost use Rattle.model.specs.declared.refusal.Fault.TheVariants as Faults;

use days::day::{DayFault, MS_PER_DAY, day_of};
use model::Date;
use model::refusal::Fault;

// The milliseconds from 0000-01-01 to 1970-01-01, and to the latest instant.
const BEFORE_1970: u64 = (0 - Instant::EARLIEST) as u64;

const LATEST_SINCE_YEAR_0: u64 = (Instant::LATEST - Instant::EARLIEST) as u64;

// 01's instant: a count of milliseconds from 1970-01-01 (Gregorian, no leap seconds).
#[derive(Clone, Copy)]
pub struct Instant {
    ms: i64,
}

// An instant outside the range.
#[derive(Clone, Copy)]
pub struct OutOfRange;

// Why a date or a date text has no instant: 8 or 9.
#[derive(Clone, Copy)]
pub enum DateFault {
    BadDate,
    OutOfRange,
}

impl From<OutOfRange> for DateFault {
    ghost from_gives = { λ e f. f ≡ Dated.OutOfRange };

    fn from(_: OutOfRange) -> DateFault {
        Self::OutOfRange
    }
}

impl From<DayFault> for DateFault {
    ghost from_gives = { λ d f. f ≡ day_fault d };

    fn from(d: DayFault) -> DateFault {
        match d {
            DayFault::NoDate => DateFault::BadDate,
            DayFault::Late => DateFault::OutOfRange,
        }
    }
}

impl From<OutOfRange> for Fault {
    ghost from_gives = { λ e f. f ≡ Faults.OutOfRange };

    fn from(_: OutOfRange) -> Fault {
        Fault::OutOfRange
    }
}

impl From<DateFault> for Fault {
    ghost from_gives = { λ d f. f ≡ fault_of d };

    fn from(d: DateFault) -> Fault {
        match d {
            DateFault::BadDate => Fault::BadDate,
            DateFault::OutOfRange => Fault::OutOfRange,
        }
    }
}

impl Instant {
    // The start of 0000-01-01, and the last millisecond of 9999-12-31.
    pub const EARLIEST: i64 = -62167219200000;

    pub const LATEST: i64 = 253402300799999;

    pub fn first() -> Instant
        ensures { result.ms ≡ earliest }
    {
        Instant {
            ms: Instant::EARLIEST,
        }
    }

    pub fn last() -> Instant
        ensures { result.ms ≡ latest }
    {
        Instant {
            ms: Instant::LATEST,
        }
    }

    // The instant so many milliseconds from 1970-01-01.
    #[tactic(auto, using(crate::proofs::Instants::early, crate::proofs::Instants::late, crate::proofs::Instants::within))]
    pub fn new(ms: i64) -> Result<Instant, OutOfRange>
        ensures { instant_result result ≡ ranged ms }
    {
        if ms < Instant::EARLIEST || ms > Instant::LATEST {
            return Err(OutOfRange);
        }
        Ok(Instant { ms })
    }

    // The instant so many milliseconds from 0000-01-01.
    #[tactic(auto, using(model::proofs::Laws::DateText::from_in_range, model::proofs::Laws::DateText::ranged_ok, crate::proofs::Laws::Instant::from_late, crate::proofs::Instants::from_fits))]
    pub fn from_year_0(since: u64) -> Result<Instant, OutOfRange>
        ensures { instant_result result ≡ ranged (from_year0 since) }
    {
        if since > LATEST_SINCE_YEAR_0 {
            return Err(OutOfRange);
        }
        let ms = since as i64 + Instant::EARLIEST;
        Ok(Instant { ms })
    }

    // The milliseconds from 1970-01-01.
    pub fn milliseconds(self) -> i64
        ensures { result ≡ self.ms }
    {
        self.ms
    }

    // The milliseconds from 0000-01-01; 0 for what is before it.
    #[tactic(auto, using(crate::proofs::Instants::since_is))]
    pub fn since_year_0(self) -> u64
        ensures { result ≡ since_year0 self.ms }
    {
        // It never wraps. (A saturating sum would take the number apart into sign and size.)
        BEFORE_1970.wrapping_add_signed(self.ms.max(Instant::EARLIEST))
    }
}

// The start of a date: 8 where there is no such date.
#[tactic(auto, using(crate::proofs::Instants::midnight_none, days::specs::Laws::told_day))]
pub fn midnight(date: Date) -> Result<Instant, DateFault>
    ensures { date_result result ≡ reading.midnight date }
{
    let day = day_of(date)?;
    Ok(Instant::from_year_0(day * MS_PER_DAY)?)
}

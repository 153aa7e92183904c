// `plusTime` and `dccDateOfBirth`, by handles.
#![tactic(auto)]

ghost use Rattle.std.specs.Prelude.{◌≡◌};
ghost use Rattle.model.specs.Result.{ok};
ghost use Rattle.op_dates.specs.Inner.{operated, Moves, Unbiased};
ghost use Rattle.op_dates.specs.Contract.{Born, Shifts};

use calendar::instant::Instant;
use dates::{read_date, read_day};
use heap::handle::Handle;
use heap::string::bytes;
use instants::shift::shift;
use model::TimeUnit;
use model::refusal::Fault;
use op_result::Operated;
use syntax::BIAS;

// An instant as an answer.
fn instant(t: Instant) -> Operated
    ensures { result ≡ operated (ok t.ms) }
{
    Ok(Handle::Instant(t.since_year_0()))
}

// The integer to which 2^53 was added.
fn signed(biased: u64) -> i64
    ensures { Unbiased biased result }
{
    (biased % (2 * BIAS)) as i64 - BIAS as i64
}

// The instant, shifted. 2^53 was added to the amount.
fn moved(t: Instant, amount: u64, unit: TimeUnit) -> Operated
    ensures { Moves t.ms amount unit result }
{
    let shifted = shift(t, signed(amount), unit)?;
    instant(shifted)
}

// 2^53 was added to the amount.
#[tactic(auto, using(crate::proofs::Instants::shifts_no_string))]
pub fn plus_time<'a>(
    rule_strings: &'a [u8],
    record_strings: &'a [u8],
    amount: u64,
    unit: TimeUnit,
    h: Handle,
) -> Operated
    ensures { Shifts rule_strings.now record_strings.now amount unit h result }
{
    let Handle::String(s) = h else {
        return Err(Fault::WrongKind);
    };
    let t = read_date(bytes(rule_strings, record_strings, s))?;
    moved(t, amount, unit)
}

#[tactic(auto, using(crate::proofs::Instants::born_no_string))]
pub fn date_of_birth<'a>(rule_strings: &'a [u8], record_strings: &'a [u8], h: Handle) -> Operated
    ensures { Born rule_strings.now record_strings.now h result }
{
    let Handle::String(s) = h else {
        return Err(Fault::WrongKind);
    };
    instant(read_day(bytes(rule_strings, record_strings, s))?)
}

// The four signs and the four date words: one comparison over the numbers of its domain.
ghost use Rattle.std.specs.Prelude.{◌≡◌};
ghost use Rattle.op_scalars.specs.Contract.{Compared, ComparedThree};
ghost use Rattle.op_scalars.specs.Inner.{Numbered, ordered};

use crate::boolean::boolean;
use heap::handle::Handle;
use model::refusal::Fault;
use model::{Comparison, Domain};
use op_result::Operated;

// A number whose order is that of the integers, or of the instants.
fn as_number(domain: Domain, h: Handle) -> Result<u64, Fault>
    ensures { Numbered domain h result }
{
    match (domain, h) {
        (Domain::OnIntegers, Handle::Integer(n)) => Ok(n),
        (Domain::OnInstants, Handle::Instant(n)) => Ok(n),
        _ => Err(Fault::WrongKind),
    }
}

fn holds(c: Comparison, a: u64, b: u64) -> bool
    ensures { result ≡ ordered c a b }
{
    match c {
        Comparison::Greater => a > b,
        Comparison::Less => a < b,
        Comparison::GreaterOrEqual => a >= b,
        Comparison::LessOrEqual => a <= b,
    }
}

pub fn compare(domain: Domain, c: Comparison, x: Handle, y: Handle) -> Operated
    ensures { Compared domain c x y result }
{
    let m = as_number(domain, x)?;
    let n = as_number(domain, y)?;
    Ok(boolean(holds(c, m, n)))
}

// Every kind is tested before a pair is compared. "With three operands: both neighbouring pairs hold." (One function over a slice of operands is
// no plainer: they stand in cells, and would be gathered into an array of two or three first.)
pub fn compare_three(domain: Domain, c: Comparison, x: Handle, y: Handle, z: Handle) -> Operated
    ensures { ComparedThree domain c x y z result }
{
    let l = as_number(domain, x)?;
    let m = as_number(domain, y)?;
    let n = as_number(domain, z)?;
    Ok(boolean(holds(c, l, m) && holds(c, m, n)))
}

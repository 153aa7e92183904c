// `+`.
ghost use Rattle.std.specs.Prelude.{Ok, Err};
ghost use Rattle.op_scalars.specs.Contract.{Sum};

use heap::handle::Handle;
use model::MAX_INTEGER;
use model::refusal::Fault;
use op_result::Operated;
use syntax::BIAS;

// The largest integer plus 2^53.
const LARGEST: u64 = MAX_INTEGER + BIAS;

// Of two integers to each of which 2^53 was added: their sum has it twice.
fn total(m: u64, n: u64) -> Operated
    ensures { Sum (Handle.Integer m) (Handle.Integer n) result }
{
    // No integer is held so.
    if m > LARGEST || n > LARGEST {
        return Err(Fault::OutOfRange);
    }
    let s = m + n;
    if s <= BIAS || s > LARGEST + BIAS {
        return Err(Fault::OutOfRange);
    }
    Ok(Handle::Integer(s - BIAS))
}

pub fn sum(x: Handle, y: Handle) -> Operated
    ensures { Sum x y result }
{
    match (x, y) {
        (Handle::Integer(m), Handle::Integer(n)) => total(m, n),
        _ => Err(Fault::WrongKind),
    }
}

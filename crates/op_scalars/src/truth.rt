// Whether a value is truthy.
ghost use Rattle.std.specs.Prelude.{◌≡◌};
ghost use Rattle.op_scalars.specs.Contract.{TruthIs};
ghost use Rattle.op_scalars.specs.Inner.{truthy_unless};

use heap::handle::Handle;
use syntax::BIAS;

// 01, Evaluation: "An instant is neither."
#[derive(Clone, Copy)]
pub enum Truth {
    Truthy,
    Falsy,
    Neither,
}

fn truthy_unless(falsy: bool) -> Truth
    ensures { result ≡ truthy_unless falsy }
{
    if falsy { Truth::Falsy } else { Truth::Truthy }
}

pub fn truth_of(h: Handle) -> Truth
    ensures { TruthIs h result }
{
    match h {
        Handle::Null | Handle::False => Truth::Falsy,
        Handle::True => Truth::Truthy,
        Handle::Integer(n) => truthy_unless(n == BIAS),
        Handle::Instant(_) => Truth::Neither,
        Handle::String(s) => truthy_unless(s.size == 0),
        Handle::Compound(p) => truthy_unless(p.count == 0),
    }
}

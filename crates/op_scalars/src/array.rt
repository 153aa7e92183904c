// The parts of an array.
ghost use Rattle.std.specs.Prelude.{◌≡◌};
ghost use Rattle.op_scalars.specs.Contract.{elements_of};

use heap::handle::{Form, Handle, Parts};

// Of an array's handle; none of another value's.
pub fn elements_of(h: Handle) -> Option<Parts>
    ensures { result ≡ elements_of h }
{
    match h {
        Handle::Compound(p) if matches!(p.form, Form::Items | Form::List) => Some(p),
        _ => None,
    }
}

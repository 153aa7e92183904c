// A boolean as a handle.
ghost use Rattle.std.specs.Prelude.{◌≡◌};
ghost use Rattle.op_scalars.specs.Inner.{boolean_handle};

use heap::handle::Handle;

pub fn boolean(b: bool) -> Handle
    ensures { result ≡ boolean_handle b }
{
    if b { Handle::True } else { Handle::False }
}

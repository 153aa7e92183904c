// A name among others that lie in one byte string.
ghost use Rattle.std.specs.Prelude.{◌≡◌};
ghost use Rattle.octets.specs.Contract.{place_from};

use crate::same;

// The first place of a name among others. Each of them has a space after it; `sizes` has the length of each.
// The two stay apart, and are no list of names: what is told where the names end before the sizes do is promised too (must-fail: place_past_the_names).
pub fn position_of(names: &[u8], sizes: &[u8], name: &[u8]) -> Option<usize>
    ensures { result ≡ place_from 0 name.now names.now sizes.now }
{
    let mut rest = names;
    for (i, size) in sizes.iter().enumerate() {
        let size = usize::from(*size);
        if rest.len() <= size {
            return None;
        }
        if same(name, &rest[..size]) {
            return Some(i);
        }
        rest = &rest[size + 1..];
    }
    None
}

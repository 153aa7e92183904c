// The index that a fragment of a path is on an array.
ghost use Rattle.std.specs.Prelude.{◌≡◌};
ghost use Rattle.paths.specs.Contract.{index_in};
ghost use Rattle.paths.specs.Inner.{plain};

// No array has so many items.
const LIMIT: usize = 16777216;

// Whether a fragment has a byte, and does not begin with a zero that others follow.
#[tactic(auto, unfolding(crate::specs::Inner::plain))]
fn is_plain(fragment: &[u8]) -> bool
    ensures { result ≡ plain fragment.now }
{
    match fragment {
        [] => false,
        [_] => true,
        [first, ..] => *first != b'0',
    }
}

// "0 or digits without a leading zero are an index": where the item stands, if an array may have it.
#[tactic(auto, using(crate::proofs::Digits::index_zero, crate::proofs::Digits::index_begins, crate::proofs::Digits::index_stops, crate::proofs::Digits::index_past, crate::proofs::Digits::index_on))]
pub fn read_index(fragment: &[u8]) -> Option<usize>
    ensures { result ≡ index_in fragment.now }
{
    if !is_plain(fragment) {
        return None;
    }
    let mut at = 0;
    for digit in fragment {
        if !digit.is_ascii_digit() {
            return None;
        }
        at = at * 10 + usize::from(*digit - b'0');
        if at >= LIMIT {
            return None;
        }
    }
    Some(at)
}

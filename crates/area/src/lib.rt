// Areas of bytes that a caller lends: clearing one, and numbers of four bytes in one.
#![tactic(auto)]

ghost use Rattle.std.specs.Prelude.{◌≡◌, ◌+◌, ◌≤◌, ◌<◌, length};
ghost use Rattle.std.proofs.lemmas.List.Edits.{sets};
ghost use Rattle.area.specs.Contract.{word, word_at, zero_between, zero_from};

// Zeros from `from` on.
#[tactic(auto, unfolding(crate::specs::Words::zero_from))]
pub fn clear_from(d: &mut [u8], from: usize)
    ensures { d.new ≡ zero_from from d.old }
{
    let start = from.min(d.len());
    d[start..].fill(0);
}

// Zeros from `from` up to `to`, or to the end.
#[tactic(auto, unfolding(crate::specs::Words::zero_from, crate::specs::Words::zero_between))]
pub fn clear_between(d: &mut [u8], from: usize, to: usize)
    ensures { d.new ≡ zero_between from to d.old }
{
    let end = to.min(d.len());
    let start = from.min(end);
    d[start..end].fill(0);
}

// The lowest four bytes of `x`, at `at`.
#[tactic(auto, using(crate::proofs::Stores::put_whole), unfolding(crate::specs::Words::word))]
pub fn put_word(d: &mut [u8], at: usize, x: usize)
    requires { at + 4 ≤ length d.old }
    ensures { d.new ≡ sets d.old at (word x) }
{
    d[at..at + 4].copy_from_slice(&x.to_le_bytes()[..4]);
}

// The number that the four bytes at `at` spell.
#[tactic(auto, unfolding(crate::specs::Words::word_at))]
pub fn get_word(d: &[u8], at: usize) -> usize
    requires { at + 4 ≤ length d.now }
    ensures { (result ≡ word_at d.now at) × (result < 4294967296) }
{
    u32::from_le_bytes([d[at], d[at + 1], d[at + 2], d[at + 3]]) as usize
}

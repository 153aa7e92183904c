// Bytes into an output, as far as they fit: what lies past its end is left out.
ghost use Rattle.std.specs.Prelude.{◌≡◌, ◌+◌, ◌%◌, ◌^◌, ◌≤◌, length, set};
ghost use Rattle.std.proofs.lemmas.List.Edits.{sets};
ghost use Rattle.print.specs.Contract.{Put, farthest};

#[tactic(auto, using(crate::proofs::Copy::set_outside))]
pub fn put_byte(output: &mut [u8], at: usize, b: u8)
    ensures { output.new ≡ set output.old at b }
{
    if at < output.len() {
        output[at] = b;
    }
}

// One by one: a copy of a number that is not known at compile time is a call of memmove, and takes longer for few bytes.
#[tactic(auto, using(crate::proofs::Copy::put_outside))]
pub fn put_bytes(output: &mut [u8], at: usize, s: &[u8])
    ensures { output.new ≡ sets output.old at s.now }
{
    if at >= output.len() {
        return;
    }
    let n = s.len().min(output.len() - at);
    for i in 0..n {
        output[at + i] = s[i];
    }
}

// A text; its end. Near any place where a token may begin the sum does not wrap; one that stops at the largest number took up to 1.15
// times as long, on strings.
pub fn put_text(output: &mut [u8], at: usize, text: &[u8]) -> usize
    ensures stored { output.new ≡ sets output.old at text.now }
    ensures end { result ≡ (at + length text.now) % 2 ^ 64 }
    ensures put { at ≤ farthest → Put text.now at output.old result output.new }
{
    put_bytes(output, at, text);
    at.wrapping_add(text.len())
}

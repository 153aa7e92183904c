// Shapes, in which a 0 stands for any digit and every other byte for itself; and the numbers at a place of a text.
ghost use Rattle.std.specs.Prelude.{◌≡◌, ◌<◌, ◌≤◌, length};
ghost use Rattle.model.specs.DateText.{fits_byte, starts_like, digit_at, two_digits, digit_run};
ghost use Rattle.model.specs.DateText as reading;

fn fits(p: u8, x: u8) -> bool
    ensures { result ≡ fits_byte p x }
{
    if p == b'0' {
        x.is_ascii_digit()
    } else {
        p == x
    }
}

// Whether a text begins with a shape.
#[tactic(auto, using(crate::proofs::Shapes::begins_short), unfolding(model::specs::DateText::starts_like))]
pub fn starts_like(shape: &[u8], text: &[u8]) -> bool
    ensures { result ≡ starts_like shape.now text.now }
{
    // Once for all bytes.
    if text.len() < shape.len() {
        return false;
    }
    for (i, p) in shape.iter().enumerate() {
        if !fits(*p, text[i]) {
            return false;
        }
    }
    true
}

// Whether it has the shape, and no more.
pub fn like(shape: &[u8], text: &[u8]) -> bool
    ensures { result ≡ reading.like shape.now text.now }
{
    text.len() == shape.len() && starts_like(shape, text)
}

// The digit at a place; 0 past the end.
pub fn digit_at(text: &[u8], i: usize) -> u64
    ensures { (result ≡ digit_at text.now i) × (result ≤ 207) }
{
    let x = text.get(i).copied().unwrap_or(0);
    u64::from(x.saturating_sub(b'0'))
}

// The number that two digits make.
pub fn two_digits(text: &[u8], i: usize) -> u64
    requires { i < 100 }
    ensures { (result ≡ two_digits text.now i) × (result ≤ 2277) }
{
    digit_at(text, i) * 10 + digit_at(text, i + 1)
}

// How many digits a text begins with.
#[tactic(auto, unfolding(model::specs::DateText::digit_run))]
pub fn digit_run(text: &[u8]) -> usize
    ensures { (result ≡ digit_run text.now) × (result ≤ length text.now) }
{
    for (i, b) in text.iter().enumerate() {
        if !b.is_ascii_digit() {
            return i;
        }
    }
    text.len()
}

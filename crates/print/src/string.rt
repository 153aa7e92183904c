// Strings: in quotes, with the escapes of RFC 8785, section 3.2.2.2.
ghost use Rattle.std.specs.Prelude.{◌≡◌, true, false, ◌&&◌, ◌≤◌, ◌<◌, length};
ghost use Rattle.std.specs.List.{fold, prefix_len};
ghost use Rattle.model.specs.Limits.{max_text_bytes};
ghost use Rattle.model.specs.Writing.{hex_digit, long_escape, escaped, string_text};
ghost use Rattle.print.specs.Contract.{Near, Put, StringPut, farthest};
ghost use Rattle.print.specs.Inner.{plain, letter_of, StringAt, Moved};

use crate::put::{put_byte, put_text};
use model::MAX_TEXT_BYTES;

// What stands after the backslash of a byte's escape of two characters.
fn letter(b: u8) -> Option<u8>
    ensures { result ≡ letter_of b }
{
    match b {
        b'\x08' => Some(b'b'),
        b'\t' => Some(b't'),
        b'\n' => Some(b'n'),
        b'\x0C' => Some(b'f'),
        b'\r' => Some(b'r'),
        b'"' | b'\\' => Some(b),
        _ => None,
    }
}

// A byte that stands as it is.
fn is_plain(b: u8) -> bool
    ensures { result ≡ plain b }
{
    b >= b' ' && b != b'"' && b != b'\\'
}

// Whether all bytes do: each is looked at, since a loop that may end early looks at them one by one.
fn all_plain(s: &[u8]) -> bool
    ensures { result ≡ fold (λ all b. all && plain b) true s.now }
{
    s.iter().fold(true, |all, b| all & is_plain(*b))
}

// How many at the front do, one at a time.
fn plain_count(s: &[u8]) -> usize
    ensures { result ≡ prefix_len plain s.now }
{
    s.iter().take_while(|b| is_plain(**b)).count()
}

// The same, eight at a time as long as it goes: one at a time throughout took 2.5 to 3 times as long on 100 bytes and more.
fn plain_run(s: &[u8]) -> usize
    ensures { result ≡ prefix_len plain s.now }
{
    let mut at: usize = 0;
    while s.len() - at >= 8 && all_plain(&s[at..at + 8]) {
        at += 8;
    }
    at + plain_count(&s[at..])
}

// A hexadecimal digit, in lower case.
fn hex(n: u8) -> u8
    requires { n < 16 }
    ensures { result ≡ hex_digit n }
{
    b"0123456789abcdef"[usize::from(n)]
}

// An escape of six bytes.
fn long_escape(b: u8) -> [u8; 6]
    ensures { result ≡ long_escape b }
{
    [b'\\', b'u', b'0', b'0', hex(b / 16), hex(b % 16)]
}

// The escape of a byte that does not stand as it is.
fn put_escape(output: &mut [u8], at: usize, b: u8) -> usize
    requires { (at ≤ farthest) × (plain b ≡ false) }
    ensures { Put (escaped b) at output.old result output.new }
{
    if let Some(c) = letter(b) {
        put_byte(output, at, b'\\');
        put_byte(output, at + 1, c);
        return at + 2;
    }
    // Where there is room for all six that is asked once: asked at each byte they took twice as long, and so did a copy of them from memory.
    if at + 6 <= output.len() {
        output[at] = b'\\';
        output[at + 1] = b'u';
        output[at + 2] = b'0';
        output[at + 3] = b'0';
        output[at + 4] = hex(b / 16);
        output[at + 5] = hex(b % 16);
        return at + 6;
    }
    put_text(output, at, &long_escape(b))
}

// How far a string is written: up to the byte `from` of it, up to `at` of the output.
#[derive(Clone, Copy)]
pub struct Move {
    pub from: usize,
    pub at: usize,
}

// A run of bytes that stand as they are, or one escape.
#[tactic(auto, using(crate::proofs::Runs::run_inside))]
fn put_some(output: &mut [u8], s: &[u8], here: Move) -> Move
    requires { StringAt s.now here }
    ensures { Moved s.now here output.old result output.new }
{
    let b = s[here.from];
    if !is_plain(b) {
        return Move {
            from: here.from + 1,
            at: put_escape(output, here.at, b),
        };
    }
    let rest = &s[here.from..];
    let run = plain_run(rest);
    Move {
        from: here.from + run,
        at: put_text(output, here.at, &rest[..run]),
    }
}

// A string of few enough bytes, its quotes too.
#[tactic(auto, unfolding(model::specs::Limits::max_text_bytes))]
fn put_quoted(output: &mut [u8], at: usize, s: &[u8]) -> usize
    requires { (Near at) × (length s.now ≤ max_text_bytes) }
    ensures { Put (string_text s.now) at output.old result output.new }
{
    put_byte(output, at, b'"');
    let mut here = Move {
        from: 0,
        at: at + 1,
    };
    while here.from < s.len() {
        here = put_some(output, s, here);
    }
    put_byte(output, here.at, b'"');
    here.at + 1
}

// A string; one that no text has room for is not written, and ends past the largest text.
#[tactic(auto, unfolding(model::specs::Limits::max_text_bytes))]
pub fn put_string(output: &mut [u8], at: usize, s: &[u8]) -> usize
    requires { Near at }
    ensures { StringPut s.now at output.old result output.new }
{
    if s.len() > MAX_TEXT_BYTES {
        return MAX_TEXT_BYTES + 1;
    }
    put_quoted(output, at, s)
}

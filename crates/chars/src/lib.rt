// Strings: characters decoded into a strings area.
#![tactic(auto)]

ghost use Rattle.std.specs.Prelude.{◌≡◌, true, false, ◌+◌, ◌≤◌, ◌<◌, length, drop, take, IfSome};
ghost use Rattle.std.proofs.lemmas.List.Edits.{sets};
ghost use Rattle.syntax.specs.declared.Lead.TheVariants.{Backslash, Char};
ghost use Rattle.syntax.specs.declared.Unit.TheVariants as units;
ghost use Rattle.syntax.specs.Tokens.{escape_of, hex_of};
ghost use Rattle.syntax.specs.Utf8.{lead_of, unit_of};
ghost use Rattle.scan.specs.Contract.{Stands};
ghost use Rattle.chars.specs.Contract.{CharsPromise};
ghost use Rattle.chars.specs.Inner.{Room, Taken, Pieced, Leads, Tailed, Coded, Unicodes, Escaped, Halved, Put, hex_at};

use model::refusal::ReadFault;
use scan::Fault;
use scan::token::stands;
use syntax::{Escape, Lead, Unit};

// Characters read up to the offset `at` and decoded up to `used`.
#[derive(Clone, Copy)]
pub struct Decoded {
    pub at: usize,
    pub used: usize,
}

// The least byte of a character: what is below it are control characters.
const LEAST: u8 = b' ';

#[tactic(auto, unfolding(syntax::specs::Utf8::lead_of, syntax::specs::Tokens::within))]
fn lead_of(b: u8) -> Lead
    ensures { result ≡ lead_of b }
{
    match b {
        b'"' => Lead::Closing,
        b'\\' => Lead::Backslash,
        LEAST..=127 => Lead::Char(0, 128, 191),
        194..=223 => Lead::Char(1, 128, 191),
        224..=244 => long_lead_of(b),
        _ => Lead::Never,
    }
}

// The same of the first byte of three or four. In one match with the others these bytes would be told before all other ones, and cost those a jump.
#[tactic(auto, unfolding(syntax::specs::Utf8::lead_of, syntax::specs::Tokens::within))]
fn long_lead_of(b: u8) -> Lead
    requires { 224 ≤ b }
    ensures { result ≡ lead_of b }
{
    match b {
        224 => Lead::Char(2, 160, 191),
        225..=236 => Lead::Char(2, 128, 191),
        237 => Lead::Char(2, 128, 159),
        238..=239 => Lead::Char(2, 128, 191),
        240 => Lead::Char(3, 144, 191),
        241..=243 => Lead::Char(3, 128, 191),
        244 => Lead::Char(3, 128, 143),
        _ => Lead::Never,
    }
}

// A byte of ASCII that stands for itself.
#[tactic(auto, unfolding(syntax::specs::Utf8::lead_of, syntax::specs::Tokens::within))]
fn is_plain(b: u8) -> bool
    ensures { result ≡ true → lead_of b ≡ Char 0 128 191 }
{
    matches!(b, LEAST..=127) && b != b'"' && b != b'\\'
}

// Copies the plain bytes among the `most` at `at`, up to the first that is not. Inlined, so that for sixteen it compiles to no loop.
#[inline(always)]
fn plain_run(text: &[u8], at: usize, most: usize, strings: &mut [u8], used: usize) -> Decoded
    requires { Room text.now at used strings.old × (at + most ≤ length text.now) }
    ensures taken { Taken text.now at used strings.old result.at result.used strings.new }
    ensures even { result.used + at ≡ used + result.at }
{
    for k in 0..most {
        let b = text[at + k];
        if !is_plain(b) {
            return Decoded {
                at: at + k,
                used: used + k,
            };
        }
        strings[used + k] = b;
    }
    Decoded {
        at: at + most,
        used: used + most,
    }
}

// The same of sixteen bytes. This and the next are functions of their own, so that each is compiled for itself before it becomes a part of another.
fn plain_start(text: &[u8], at: usize, strings: &mut [u8], used: usize) -> Decoded
    requires { Room text.now at used strings.old × (at + 16 ≤ length text.now) }
    ensures taken { Taken text.now at used strings.old result.at result.used strings.new }
    ensures even { result.used + at ≡ used + result.at }
{
    plain_run(text, at, 16, strings, used)
}

// The same of all bytes from `at` on. The end of the text is told first: else that test is shared with the loop's own, which then takes a jump more.
fn plain_rest(text: &[u8], at: usize, strings: &mut [u8], used: usize) -> Decoded
    requires { Room text.now at used strings.old }
    ensures taken { Taken text.now at used strings.old result.at result.used strings.new }
    ensures even { result.used + at ≡ used + result.at }
{
    if text.len() <= at {
        return Decoded { at, used };
    }
    plain_run(text, at, text.len() - at, strings, used)
}

// Copies the run of plain bytes at `at`, or sixteen of it.
fn short_run(text: &[u8], at: usize, strings: &mut [u8], used: usize) -> Decoded
    requires { Room text.now at used strings.old }
    ensures taken { Taken text.now at used strings.old result.at result.used strings.new }
    ensures even { result.used + at ≡ used + result.at }
{
    if text.len() - at < 16 {
        return plain_rest(text, at, strings, used);
    }
    if !is_plain(text[at]) {
        return Decoded { at, used };
    }
    plain_start(text, at, strings, used)
}

// How many of the `n` bytes at `at` can follow a character's first one: the first from `lo` to `hi`, the others from 80 to BF.
fn tails(text: &[u8], at: usize, n: usize, lo: u8, hi: u8) -> usize
    requires { at ≤ length text.now }
    ensures { Tailed text.now at n lo hi result }
{
    let mut low = lo;
    let mut high = hi;
    for i in 0..n {
        if text.len() <= at + i {
            return i;
        }
        let b = text[at + i];
        if b < low || high < b {
            return i;
        }
        low = 128;
        high = 191;
    }
    n
}

// Copies `n` bytes of the text. A character has one to four: where the number is known they are moved, without a call.
#[tactic(auto, using(area::proofs::Stores::put_whole))]
fn copy(text: &[u8], at: usize, n: usize, strings: &mut [u8], used: usize)
    requires { (at + n ≤ length text.now) × (used + n ≤ length strings.old) }
    ensures { strings.new ≡ sets strings.old used (take n (drop at text.now)) }
{
    match n {
        1 => strings[used] = text[at],
        2 => strings[used..used + 2].copy_from_slice(&text[at..at + 2]),
        3 => strings[used..used + 3].copy_from_slice(&text[at..at + 3]),
        4 => strings[used..used + 4].copy_from_slice(&text[at..at + 4]),
        _ => strings[used..used + n].copy_from_slice(&text[at..at + n]),
    }
}

// The character at `at`, of which `n` bytes follow the first.
fn character(
    text: &[u8],
    at: usize,
    n: usize,
    lo: u8,
    hi: u8,
    strings: &mut [u8],
    used: usize,
) -> Result<Decoded, Fault>
    requires { (Room text.now at used strings.old) × Leads text.now at (Char n lo hi) }
    ensures { Pieced text.now at used strings.old result strings.new }
{
    let found = tails(text, at + 1, n, lo, hi);
    if found < n {
        return Err(Fault {
            reason: ReadFault::NotJson,
            at: at + 1 + found,
        });
    }
    copy(text, at, n + 1, strings, used);
    Ok(Decoded {
        at: at + 1 + n,
        used: used + 1 + n,
    })
}

#[tactic(auto, unfolding(syntax::specs::Tokens::escape_of))]
fn escape_of(b: u8) -> Escape
    ensures { result ≡ escape_of b }
{
    match b {
        b'"' | b'\\' | b'/' => Escape::Letter(b),
        b'b' => Escape::Letter(b'\x08'),
        b'f' => Escape::Letter(b'\x0C'),
        b'n' => Escape::Letter(b'\n'),
        b'r' => Escape::Letter(b'\r'),
        b't' => Escape::Letter(b'\t'),
        b'u' => Escape::Unicode,
        _ => Escape::NoEscape,
    }
}

#[tactic(auto, unfolding(syntax::specs::Tokens::hex_of, syntax::specs::Tokens::within))]
fn hex_of(b: u8) -> Option<u8>
    ensures { result ≡ hex_of b }
{
    match b {
        b'0'..=b'9' => Some(b - b'0'),
        b'A'..=b'F' => Some(b - b'A' + 10),
        b'a'..=b'f' => Some(b - b'a' + 10),
        _ => None,
    }
}

// The number of the hexadecimal digit at `at`, if one stands there.
#[tactic(auto, unfolding(crate::specs::Inner::hex_at))]
fn hex_at(text: &[u8], at: usize) -> Option<u8>
    ensures is { result ≡ hex_at text.now at }
    ensures inside { IfSome result (λ d. at < length text.now) }
{
    hex_of(*text.get(at)?)
}

// The code unit of the four hexadecimal digits at `at`.
fn code_unit(text: &[u8], at: usize) -> Result<u32, Fault>
    requires { at ≤ length text.now }
    ensures { Coded text.now at result }
{
    let mut unit = 0;
    for i in 0..4 {
        let Some(d) = hex_at(text, at + i) else {
            return Err(Fault {
                reason: ReadFault::NotJson,
                at: at + i,
            });
        };
        unit = unit * 16 + u32::from(d);
    }
    Ok(unit)
}

#[tactic(auto, unfolding(syntax::specs::Utf8::unit_of, syntax::specs::Tokens::within))]
fn unit_of(u: u32) -> Unit
    ensures { result ≡ unit_of u }
{
    match u {
        0xD800..=0xDBFF => Unit::High,
        0xDC00..=0xDFFF => Unit::Low,
        _ => Unit::Plain,
    }
}

// Writes a code point in UTF-8, and gives the end of it. The four lengths differ in shifts and marks: a loop over them would be longer.
fn put_utf8(strings: &mut [u8], used: usize, u: u32) -> usize
    requires { (u < 1114112) × (used + 4 ≤ length strings.old) }
    ensures { Put strings.old used u result strings.new }
{
    if u < 128 {
        strings[used] = u as u8;
        return used + 1;
    }
    if u < 2048 {
        strings[used] = (192 + u / 64) as u8;
        strings[used + 1] = (128 + u % 64) as u8;
        return used + 2;
    }
    if u < 65536 {
        strings[used] = (224 + u / 4096) as u8;
        strings[used + 1] = (128 + u / 64 % 64) as u8;
        strings[used + 2] = (128 + u % 64) as u8;
        return used + 3;
    }
    strings[used] = (240 + u / 262144) as u8;
    strings[used + 1] = (128 + u / 4096 % 64) as u8;
    strings[used + 2] = (128 + u / 64 % 64) as u8;
    strings[used + 3] = (128 + u % 64) as u8;
    used + 4
}

// The second half of a pair, if an escape for one stands at `at`.
fn low_half(text: &[u8], at: usize) -> Option<u32>
    requires { at ≤ length text.now }
    ensures { Halved text.now at result }
{
    if !stands(text, at, b'\\') {
        return None;
    }
    if !stands(text, at + 1, b'u') {
        return None;
    }
    let Ok(u) = code_unit(text, at + 2) else {
        return None;
    };
    match unit_of(u) {
        Unit::Low => Some(u),
        Unit::High | Unit::Plain => None,
    }
}

// The pair whose high half `h` is the escape at `at`.
fn pair(text: &[u8], at: usize, h: u32, strings: &mut [u8], used: usize) -> Result<Decoded, Fault>
    requires { (Room text.now at used strings.old) × Escaped text.now at h units.High }
    ensures { Pieced text.now at used strings.old result strings.new }
{
    let next = at + 6;
    let Some(l) = low_half(text, next) else {
        return Err(Fault {
            reason: ReadFault::LoneSurrogate,
            at,
        });
    };
    Ok(Decoded {
        at: next + 6,
        used: put_utf8(strings, used, 65536 + (h - 55296) * 1024 + (l - 56320)),
    })
}

// The code unit `u` that the escape at `at` gives, with its partner if it is one of a pair.
fn unit(text: &[u8], at: usize, u: u32, strings: &mut [u8], used: usize) -> Result<Decoded, Fault>
    requires { (Room text.now at used strings.old) × Escaped text.now at u (unit_of u) × (u < 65536) }
    ensures { Pieced text.now at used strings.old result strings.new }
{
    match unit_of(u) {
        Unit::Plain => Ok(Decoded {
            at: at + 6,
            used: put_utf8(strings, used, u),
        }),
        Unit::High => pair(text, at, u, strings, used),
        Unit::Low => Err(Fault {
            reason: ReadFault::LoneSurrogate,
            at,
        }),
    }
}

// The escape \uXXXX at `at`.
fn unicode(text: &[u8], at: usize, strings: &mut [u8], used: usize) -> Result<Decoded, Fault>
    requires { (Room text.now at used strings.old) × Unicodes text.now at }
    ensures { Pieced text.now at used strings.old result strings.new }
{
    let u = code_unit(text, at + 2)?;
    unit(text, at, u, strings, used)
}

// The escape whose backslash is at `at`.
fn escape(text: &[u8], at: usize, strings: &mut [u8], used: usize) -> Result<Decoded, Fault>
    requires { (Room text.now at used strings.old) × Leads text.now at Backslash }
    ensures { Pieced text.now at used strings.old result strings.new }
{
    if text.len() <= at + 1 {
        return Err(Fault {
            reason: ReadFault::NotJson,
            at: at + 1,
        });
    }
    match escape_of(text[at + 1]) {
        Escape::Letter(d) => {
            strings[used] = d;
            Ok(Decoded {
                at: at + 2,
                used: used + 1,
            })
        }
        Escape::Unicode => unicode(text, at, strings, used),
        Escape::NoEscape => Err(Fault {
            reason: ReadFault::NotJson,
            at: at + 1,
        }),
    }
}

// The character or escape at `at`, which is not the closing quote.
fn piece(text: &[u8], at: usize, strings: &mut [u8], used: usize) -> Result<Decoded, Fault>
    requires { (Room text.now at used strings.old) × Stands text.now at 34 false }
    ensures { Pieced text.now at used strings.old result strings.new }
{
    if text.len() <= at {
        return Err(Fault {
            reason: ReadFault::NotJson,
            at,
        });
    }
    match lead_of(text[at]) {
        Lead::Char(n, lo, hi) => character(text, at, usize::from(n), lo, hi, strings, used),
        Lead::Backslash => escape(text, at, strings, used),
        Lead::Closing | Lead::Never => Err(Fault {
            reason: ReadFault::NotJson,
            at,
        }),
    }
}

// The characters from `at`, where no quote stands, up to the closing quote: a piece and a run of plain bytes at a time.
fn from_piece(text: &[u8], at: usize, strings: &mut [u8], used: usize) -> Result<Decoded, Fault>
    requires { (Room text.now at used strings.old) × Stands text.now at 34 false }
    ensures { CharsPromise text.now at used strings.old result strings.new }
{
    let mut here = Decoded { at, used };
    loop {
        let next = piece(text, here.at, strings, here.used)?;
        here = plain_rest(text, next.at, strings, next.used);
        if stands(text, here.at, b'"') {
            return Ok(here);
        }
    }
}

// The characters from `at` up to the closing quote, of any string.
fn any_chars(text: &[u8], at: usize, strings: &mut [u8], used: usize) -> Result<Decoded, Fault>
    requires { Room text.now at used strings.old }
    ensures { CharsPromise text.now at used strings.old result strings.new }
{
    let run = short_run(text, at, strings, used);
    if stands(text, run.at, b'"') {
        return Ok(run);
    }
    from_piece(text, run.at, strings, run.used)
}

// The characters from `at` up to the closing quote, which stays. Most strings have a few plain bytes: these are read first.
pub fn chars(text: &[u8], at: usize, strings: &mut [u8], used: usize) -> Result<Decoded, Fault>
    requires { (used ≤ at) × (length text.now ≤ length strings.old) }
    ensures { CharsPromise text.now at used strings.old result strings.new }
{
    if text.len() <= at {
        return Err(Fault {
            reason: ReadFault::NotJson,
            at,
        });
    }
    if text.len() - at < 16 {
        return any_chars(text, at, strings, used);
    }
    let first = plain_start(text, at, strings, used);
    if stands(text, first.at, b'"') {
        return Ok(first);
    }
    any_chars(text, first.at, strings, first.used)
}

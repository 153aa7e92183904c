// `extractFromUVCI`.
#![tactic(auto)]

ghost use Rattle.std.specs.Prelude.{◌≡◌};
ghost use Rattle.model.specs.Operations.{nth_string};
ghost use Rattle.op_uvci.specs.Inner.{Ends, fragments_from, numbered, named, Finds};
ghost use Rattle.op_uvci.specs.Contract.{Extracts};

use heap::handle::{Handle, Span, string};
use heap::string::bytes;
use model::refusal::Fault;
use octets::path::fragment_end;
use octets::same;
use op_result::Operated;
use syntax::BIAS;
use table::row::Span as Part;
use table::string::part_of;

// Where the fragment that begins at `at` ends. 01: "Split on / # :".
fn end_of(text: &[u8], at: usize) -> usize
    ensures { Ends text.now at result }
{
    fragment_end(text, at, b"/#:")
}

// The fragment so many after the one that begins at `at`.
#[tactic(auto, using(crate::proofs::Fragments::seek_here))]
fn nth(text: &[u8], at: usize, index: u64) -> Option<Part>
    ensures { Finds text.now (nth_string (fragments_from text.now at) index) result }
{
    let mut start = at;
    let mut left = index;
    while start <= text.len() {
        let end = end_of(text, start);
        if left == 0 {
            return Some(Part {
                start,
                size: end - start,
            });
        }
        left -= 1;
        start = end + 1;
    }
    None
}

// Where the fragments that are numbered begin. 01: "drop the first two fragments if they are URN and UVCI".
fn numbered_from(text: &[u8]) -> usize
    ensures { fragments_from text.now result ≡ numbered text.now }
{
    let first = end_of(text, 0);
    if first == text.len() {
        return 0;
    }
    let rest = first + 1;
    let second = end_of(text, rest);
    if same(part_of(text, 0, first), b"URN") && same(part_of(text, rest, second - rest), b"UVCI") {
        return second + 1;
    }
    0
}

// The numbered fragment. 2^53 was added to the index.
fn find(text: &[u8], index: u64) -> Option<Part>
    ensures { Finds text.now (named text.now index) result }
{
    if index < BIAS {
        return None;
    }
    nth(text, numbered_from(text), index - BIAS)
}

// The fragment of a string is a part of the same area.
fn extract_part<'a>(
    rule_strings: &'a [u8],
    record_strings: &'a [u8],
    index: u64,
    s: Span,
) -> Operated
    ensures { Extracts rule_strings.now record_strings.now index (Handle.String s) result }
{
    match find(bytes(rule_strings, record_strings, s), index) {
        None => Ok(Handle::Null),
        Some(part) => Ok(string(s.area, s.start + part.start, part.size)),
    }
}

// 01: "null gives null; a non-string is 7." 2^53 was added to the index.
pub fn extract<'a>(
    rule_strings: &'a [u8],
    record_strings: &'a [u8],
    index: u64,
    h: Handle,
) -> Operated
    ensures { Extracts rule_strings.now record_strings.now index h result }
{
    match h {
        Handle::Null => Ok(Handle::Null),
        Handle::String(s) => extract_part(rule_strings, record_strings, index, s),
        _ => Err(Fault::WrongKind),
    }
}

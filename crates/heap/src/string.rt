// The bytes of a string, where they lie.
ghost use Rattle.std.specs.Prelude.{◌≡◌};
ghost use Rattle.heap.specs.Contract.{span_bytes};

use crate::handle::{Area, Span};
use table::string::part_of;

// 01, Evaluation: a string is a part of the rule's strings or of the record's, never a copy.
pub fn bytes<'a>(rule_strings: &'a [u8], record_strings: &'a [u8], s: Span) -> &'a [u8]
    ensures { result.now ≡ span_bytes rule_strings.now record_strings.now s }
{
    match s.area {
        Area::Rule => part_of(rule_strings, s.start, s.size),
        Area::Record => part_of(record_strings, s.start, s.size),
    }
}

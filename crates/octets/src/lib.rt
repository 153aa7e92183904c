// Bytes compared with bytes; names in a list; the fragments of texts.
#![tactic(auto)]

ghost use Rattle.std.specs.Prelude.{◌≡◌};
ghost use Rattle.model.specs.Bytes.{same_bytes};

pub mod names;
pub mod path;

// 01, Reading: "Names and strings are equal when their decoded UTF-8 bytes are."
pub fn same(a: &[u8], b: &[u8]) -> bool
    ensures { result ≡ same_bytes a.now b.now }
{
    a == b
}

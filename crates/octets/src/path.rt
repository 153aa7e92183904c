// The fragments of a text, and the texts of paths (01, `var`).
ghost use Rattle.std.specs.Prelude.{true, ◌≡◌, ◌+◌, eqb, drop};
ghost use Rattle.octets.specs.Contract.{fragment_length};
ghost use Rattle.octets.specs.Inner.{fragments};
ghost use Rattle.model.specs.Lists.{any};
ghost use Rattle.model.specs.Option.{is_some};
ghost use Rattle.model.specs.Path.{path_of};

// Every fragment of a text between its dots has a byte.
fn has_fragments(text: &[u8]) -> bool
    ensures { result ≡ fragments true text.now }
{
    let mut empty = true;
    for b in text {
        let dot = *b == b'.';
        if dot && empty {
            return false;
        }
        empty = dot;
    }
    !empty
}

// "empty, or non-empty fragments parted by dots"
#[tactic(auto, using(crate::proofs::Paths::no_path, crate::proofs::Paths::path_fragments))]
pub fn is_path(text: &[u8]) -> bool
    ensures { result ≡ is_some (path_of text.now) }
{
    text.is_empty() || has_fragments(text)
}

// Whether a byte is one of these.
fn is_one_of(x: u8, bytes: &[u8]) -> bool
    ensures { result ≡ any (eqb x) bytes.now }
{
    bytes.contains(&x)
}

// Where the fragment that begins at `at` ends: at a separator, or with the text.
#[tactic(auto, unfolding(crate::specs::Fragment::fragment_length))]
pub fn fragment_end(text: &[u8], at: usize, separators: &[u8]) -> usize
    ensures { result ≡ at + fragment_length separators.now (drop at text.now) }
{
    // The answer is counted along: from a range's place and length the compiler made two more steps for each byte.
    let mut end = at;
    let rest = &text[end.min(text.len())..];
    for b in rest {
        if is_one_of(*b, separators) {
            return end;
        }
        end += 1;
    }
    end
}

// The names of operations and units (01, Shape of a rule).
#![tactic(auto)]

ghost use Rattle.std.specs.Prelude.{cond, [], ◌∷◌, ◌≡◌, length};
ghost use Rattle.model.specs.Bytes.{same_bytes};
ghost use Rattle.model.specs.Shape.{keyword_named, unit_named};
ghost use Rattle.keywords.specs.Contract.{keyword_of};

use model::{Comparison, Domain, TimeUnit};
use octets::same;

// An operation that evaluates all operands first. 2^53 was added to an amount and an index.
#[derive(Clone, Copy)]
pub enum Op {
    Array,
    Equal,
    MemberOf,
    Plus,
    Not,
    DateOfBirth,
    Compare {
        domain: Domain,
        comparison: Comparison,
    },
    PlusTime {
        amount: u64,
        unit: TimeUnit,
    },
    ExtractFromUvci(u64),
}

// How an operation is written; `Counted` has from `least` to `most` rules as operands.
#[derive(Clone, Copy)]
pub enum Keyword {
    Var,
    If,
    Reduce,
    And,
    PlusTime,
    ExtractFromUvci,
    Counted { least: usize, most: usize, op: Op },
}

// An operation on exactly n rules.
fn exactly(n: usize, op: Op) -> Keyword
    ensures { result ≡ Keyword.Counted n n op }
{
    Keyword::Counted {
        least: n,
        most: n,
        op,
    }
}

// A comparison has two or three rules.
fn compare(domain: Domain, comparison: Comparison) -> Keyword
    ensures { result ≡ Keyword.Counted 2 3 (Op.Compare domain comparison) }
{
    Keyword::Counted {
        least: 2,
        most: 3,
        op: Op::Compare { domain, comparison },
    }
}

// ---- by the number of bytes, then by the first of them: of all names one at most is left, and compared.
// Nineteen comparisons were slower: a tenth of an admission.
// This keyword, if the name is this word.
fn spelled(name: &[u8], word: &[u8], k: Keyword) -> Option<Keyword>
    ensures { keyword_of result ≡ cond (same_bytes name.now word.now) (keyword_of (Some k)) None }
{
    if same(name, word) {
        return Some(k);
    }
    None
}

// The keyword whose name is one byte.
fn of_one_byte(a: u8) -> Option<Keyword>
    ensures { keyword_of result ≡ keyword_named (a ∷ []) }
{
    match a {
        b'+' => Some(exactly(2, Op::Plus)),
        b'>' => Some(compare(Domain::OnIntegers, Comparison::Greater)),
        b'<' => Some(compare(Domain::OnIntegers, Comparison::Less)),
        b'!' => Some(exactly(1, Op::Not)),
        _ => None,
    }
}

// The keyword whose name is two bytes.
fn of_two_bytes(a: u8, b: u8) -> Option<Keyword>
    ensures { keyword_of result ≡ keyword_named (a ∷ b ∷ []) }
{
    match (a, b) {
        (b'i', b'f') => Some(Keyword::If),
        (b'i', b'n') => Some(exactly(2, Op::MemberOf)),
        (b'>', b'=') => Some(compare(Domain::OnIntegers, Comparison::GreaterOrEqual)),
        (b'<', b'=') => Some(compare(Domain::OnIntegers, Comparison::LessOrEqual)),
        _ => None,
    }
}

// The keyword whose name is three bytes.
fn of_three_bytes(name: &[u8]) -> Option<Keyword>
    requires { length name.now ≡ 3 }
    ensures { keyword_of result ≡ keyword_named name.now }
{
    match name[0] {
        b'v' => spelled(name, b"var", Keyword::Var),
        b'=' => spelled(name, b"===", exactly(2, Op::Equal)),
        b'a' => spelled(name, b"and", Keyword::And),
        _ => None,
    }
}

// The keyword whose name is six bytes.
fn of_six_bytes(name: &[u8]) -> Option<Keyword>
    requires { length name.now ≡ 6 }
    ensures { keyword_of result ≡ keyword_named name.now }
{
    match name[0] {
        b'r' => spelled(name, b"reduce", Keyword::Reduce),
        b'b' => spelled(
            name,
            b"before",
            compare(Domain::OnInstants, Comparison::Less),
        ),
        _ => None,
    }
}

// The keyword of this name. "The four date words, in the table's order, mean >, <, <=, >= on instants."
pub fn keyword_named(name: &[u8]) -> Option<Keyword>
    ensures { keyword_of result ≡ keyword_named name.now }
{
    match name.len() {
        1 => of_one_byte(name[0]),
        2 => of_two_bytes(name[0], name[1]),
        3 => of_three_bytes(name),
        5 => spelled(
            name,
            b"after",
            compare(Domain::OnInstants, Comparison::Greater),
        ),
        6 => of_six_bytes(name),
        8 => spelled(name, b"plusTime", Keyword::PlusTime),
        9 => spelled(
            name,
            b"not-after",
            compare(Domain::OnInstants, Comparison::LessOrEqual),
        ),
        10 => spelled(
            name,
            b"not-before",
            compare(Domain::OnInstants, Comparison::GreaterOrEqual),
        ),
        14 => spelled(name, b"dccDateOfBirth", exactly(1, Op::DateOfBirth)),
        15 => spelled(name, b"extractFromUVCI", Keyword::ExtractFromUvci),
        _ => None,
    }
}

// The unit of this name.
pub fn unit_named(name: &[u8]) -> Option<TimeUnit>
    ensures { result ≡ unit_named name.now }
{
    if same(name, b"year") {
        return Some(TimeUnit::Year);
    }
    if same(name, b"month") {
        return Some(TimeUnit::Month);
    }
    if same(name, b"day") {
        return Some(TimeUnit::Day);
    }
    if same(name, b"hour") {
        return Some(TimeUnit::Hour);
    }
    None
}

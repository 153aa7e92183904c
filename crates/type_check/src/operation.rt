// Literals and operations: the types of a rule by those of its operands.
ghost use Rattle.std.specs.Prelude.{[], ◌∷◌, ◌≡◌};
ghost use Rattle.model.specs.TypeCheck.{domain_type};
ghost use Rattle.model.specs.declared.Ty.TheVariants.{Null, String};
ghost use Rattle.type_set.specs.Contract.{set_of};
ghost use Rattle.type_check.specs.ByRows.{literal_by, accepted_as, all_of, no_operands, one_more, passes_as, member_by, array_by, branches_by, and_by, operation_by};

use keywords::Op;
use model::{Domain, Ty};
use rule::view::Literal;
use table::string::bytes_of;
use text_types::types_of;
use type_set::set::{TypeSet, any_of_record, none, only, passes, scalars, union};

// The types of some operands: those that any but the last has, and the last's.
#[derive(Clone, Copy)]
pub struct Operands {
    pub before: TypeSet,
    pub last: TypeSet,
}

// "A string literal is day, else date, else string."
pub fn literal_types(rule_strings: &[u8], l: Literal) -> TypeSet
    ensures { result ≡ literal_by rule_strings.now l }
{
    match l {
        Literal::False | Literal::True => only(Ty::Boolean),
        Literal::Integer(_) => only(Ty::Integer),
        Literal::String(s) => types_of(bytes_of(rule_strings, s)),
    }
}

// ---- operands
// No operand.
pub fn no_operands() -> Operands
    ensures { result ≡ no_operands }
{
    Operands {
        before: none(),
        last: none(),
    }
}

// The types that any operand has.
fn all_types(o: Operands) -> TypeSet
    ensures { result ≡ all_of o }
{
    union(o.before, o.last)
}

// One operand more.
pub fn one_more(o: Operands, last: TypeSet) -> Operands
    ensures { result ≡ one_more o last }
{
    Operands {
        before: all_types(o),
        last,
    }
}

// ---- operations
// These types, if the rule is accepted.
fn accepted(ok: bool, s: TypeSet) -> Option<TypeSet>
    ensures { result ≡ accepted_as ok s }
{
    if ok { Some(s) } else { None }
}

// What is given, if all the types pass where these are allowed.
pub fn passing(s: TypeSet, allowed: TypeSet, given: TypeSet) -> Option<TypeSet>
    ensures { result ≡ accepted_as (passes_as s allowed) given }
{
    accepted(passes(s, allowed), given)
}

// What a comparison takes.
fn domain_type(domain: Domain) -> Ty
    ensures { result ≡ domain_type domain }
{
    match domain {
        Domain::OnIntegers => Ty::Integer,
        Domain::OnInstants => Ty::Instant,
    }
}

// What `extractFromUVCI` takes and gives.
fn null_or_string() -> TypeSet
    ensures { result ≡ set_of (Null ∷ String ∷ []) }
{
    union(only(Ty::Null), only(Ty::String))
}

// "An array is integers if every item's only word is integer (the empty one too), else strings if all item words pass as string, else array."
fn array_types(items: TypeSet) -> TypeSet
    ensures { result ≡ array_by items }
{
    if passes(items, only(Ty::Integer)) {
        return only(Ty::Integers);
    }
    if passes(items, only(Ty::String)) {
        return only(Ty::Strings);
    }
    only(Ty::Array)
}

// `in`: "a scalar, then an array".
fn member_types(element: TypeSet, items: TypeSet) -> Option<TypeSet>
    ensures { result ≡ member_by element items }
{
    let ok = passes(element, scalars()) & passes(items, only(Ty::Array));
    accepted(ok, only(Ty::Boolean))
}

// `if`, by its branches.
pub fn branch_types(found: Option<Operands>) -> Option<TypeSet>
    ensures { result ≡ branches_by found }
{
    Some(all_types(found?))
}

// `and`
pub fn and_types(found: Option<Operands>) -> Option<TypeSet>
    ensures { result ≡ and_by found }
{
    let all = all_types(found?);
    passing(all, any_of_record(), all)
}

// An operation that evaluates all its operands: the types that they may have, and those that it gives.
pub fn operation_types(op: Op, found: Option<Operands>) -> Option<TypeSet>
    ensures { result ≡ operation_by op found }
{
    let o = found?;
    let all = all_types(o);
    match op {
        Op::Array => Some(array_types(all)),
        Op::Equal => passing(all, scalars(), only(Ty::Boolean)),
        Op::MemberOf => member_types(o.before, o.last),
        Op::Plus => passing(all, only(Ty::Integer), only(Ty::Integer)),
        Op::Not => passing(all, any_of_record(), only(Ty::Boolean)),
        Op::DateOfBirth => passing(all, only(Ty::Day), only(Ty::Instant)),
        Op::Compare {
            domain,
            comparison: _,
        } => passing(all, only(domain_type(domain)), only(Ty::Boolean)),
        Op::PlusTime { amount: _, unit: _ } => passing(all, only(Ty::Date), only(Ty::Instant)),
        Op::ExtractFromUvci(_) => passing(all, null_or_string(), null_or_string()),
    }
}

// `===`, `in` and `!`.
ghost use Rattle.std.specs.Prelude.{◌≡◌};
ghost use Rattle.op_scalars.specs.Contract.{Negated, Equality, Membership};
ghost use Rattle.op_scalars.specs.Inner.{is_scalar, same_handles, among_parts};

use crate::array::elements_of;
use crate::boolean::boolean;
use crate::truth::{Truth, truth_of};
use heap::areas::Areas;
use heap::handle::{Handle, Parts};
use heap::part::{head, tail};
use heap::string::bytes;
use model::refusal::Fault;
use op_result::Operated;

// A scalar: null, a boolean, an integer or a string.
fn is_scalar(h: Handle) -> bool
    ensures { result ≡ is_scalar h }
{
    !matches!(h, Handle::Instant(_) | Handle::Compound(_))
}

// Two scalars of the same kind and content; false where either is no scalar.
fn same_scalar<'a>(rule_strings: &'a [u8], record_strings: &'a [u8], x: Handle, y: Handle) -> bool
    ensures { result ≡ same_handles rule_strings.now record_strings.now x y }
{
    match (x, y) {
        (Handle::Null, Handle::Null) => true,
        (Handle::False, Handle::False) => true,
        (Handle::True, Handle::True) => true,
        (Handle::Integer(m), Handle::Integer(n)) => m == n,
        (Handle::String(s), Handle::String(t)) => {
            bytes(rule_strings, record_strings, s) == bytes(rule_strings, record_strings, t)
        }
        _ => false,
    }
}

pub fn negated(x: Handle) -> Operated
    ensures { Negated x result }
{
    match truth_of(x) {
        Truth::Truthy => Ok(Handle::False),
        Truth::Falsy => Ok(Handle::True),
        Truth::Neither => Err(Fault::WrongKind),
    }
}

pub fn equality<'a>(
    rule_strings: &'a [u8],
    record_strings: &'a [u8],
    x: Handle,
    y: Handle,
) -> Operated
    ensures { Equality rule_strings.now record_strings.now x y result }
{
    if !is_scalar(x) || !is_scalar(y) {
        return Err(Fault::WrongKind);
    }
    Ok(boolean(same_scalar(rule_strings, record_strings, x, y)))
}

// Whether one of the parts is the same scalar.
fn is_among(areas: Areas, x: Handle, p: Parts) -> bool
    ensures { result ≡ among_parts areas.entry.rule_strings.now areas.entry.record_strings.now areas.entry.record_table.now areas.entry.cells.now x p.count p }
{
    let mut rest = p;
    // No index is counted: the parts are a list that `head` and `tail` take apart.
    while rest.count > 0 {
        let part = head(areas.record_table, areas.cells, rest);
        if same_scalar(areas.rule_strings, areas.record_strings, x, part) {
            return true;
        }
        rest = tail(areas.record_table, areas.cells, rest);
    }
    false
}

pub fn membership(areas: Areas, x: Handle, y: Handle) -> Operated
    ensures { Membership areas.entry.rule_strings.now areas.entry.record_strings.now areas.entry.record_table.now areas.entry.cells.now x y result }
{
    if !is_scalar(x) {
        return Err(Fault::WrongKind);
    }
    let Some(p) = elements_of(y) else {
        return Err(Fault::WrongKind);
    };
    Ok(boolean(is_among(areas, x, p)))
}

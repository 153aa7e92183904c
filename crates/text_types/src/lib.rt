// The type that a text names, and the types that a text has.
#![tactic(auto)]

ghost use Rattle.std.specs.Prelude.{◌≡◌};
ghost use Rattle.model.specs.DateText.{is_date, is_day};
ghost use Rattle.model.specs.Rule.{Literal};
ghost use Rattle.model.specs.Sheet.{words, type_named};
ghost use Rattle.model.specs.TypeCheck.{literal_types};
ghost use Rattle.octets.specs.Names.{entry_at};
ghost use Rattle.type_set.specs.Contract.{set_of};

use dates::{read_date, read_day};
use model::Ty;
use octets::names::position_of;
use type_set::set::{TypeSet, only};

// The type at a place of the table of words.
fn type_at(i: usize) -> Option<Ty>
    ensures { result ≡ entry_at words i }
{
    match i {
        0 => Some(Ty::Null),
        1 => Some(Ty::Boolean),
        2 => Some(Ty::Integer),
        3 => Some(Ty::String),
        4 => Some(Ty::Date),
        5 => Some(Ty::Day),
        6 => Some(Ty::Integers),
        7 => Some(Ty::Strings),
        8 => Some(Ty::Array),
        9 => Some(Ty::Object),
        _ => None,
    }
}

// The type that a word of a sheet names. Names, sizes and places: so the search of `position_of` and its wrong programs (`place_from_one`) have them.
pub fn type_named(name: &[u8]) -> Option<Ty>
    ensures { result ≡ type_named name.now }
{
    let names = b"null boolean integer string date day integers strings array object ";
    let sizes = [4, 7, 7, 6, 4, 3, 8, 7, 5, 6];
    type_at(position_of(names, &sizes, name)?)
}

// "day (one of the first three)"
#[tactic(auto, using(crate::proofs::Dates::told))]
pub fn is_day(text: &[u8]) -> bool
    ensures { result ≡ is_day text.now }
{
    read_day(text).is_ok()
}

// "date (a string in one of the nineteen forms, instant in range)"
#[tactic(auto, using(crate::proofs::Dates::told))]
pub fn is_date(text: &[u8]) -> bool
    ensures { result ≡ is_date text.now }
{
    read_date(text).is_ok()
}

// "A string literal is day, else date, else string."
pub fn types_of(text: &[u8]) -> TypeSet
    ensures { result ≡ set_of (literal_types (Literal.string text.now)) }
{
    if is_day(text) {
        return only(Ty::Day);
    }
    if is_date(text) {
        return only(Ty::Date);
    }
    only(Ty::String)
}

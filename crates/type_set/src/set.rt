// A set of types: whether each is in it.
ghost use Rattle.std.specs.Prelude.{[], ◌∷◌, ◌++◌, true, false, cond, ◌≡◌, ◌≤◌};
ghost use Rattle.model.specs.TypeCheck.{items_types};
ghost use Rattle.model.specs.Types.{is_in, passes as allPass, scalars as scalarTypes, any_of_record, any_value, type_bits, ty_number};
ghost use Rattle.type_set.specs.Contract.{set_of, types_in};

use model::Ty;

// Eleven flags: `set_of`, which the contracts of the crates above cite, names each.
#[derive(Clone, Copy, Default)]
pub struct TypeSet {
    pub null: bool,
    pub boolean: bool,
    pub integer: bool,
    pub string: bool,
    pub date: bool,
    pub day: bool,
    pub integers: bool,
    pub strings: bool,
    pub array: bool,
    pub object: bool,
    pub instant: bool,
}

// ---- functions, not methods: `passes(items, only(Ty::Array))` reads as the paper does; `items.passes(TypeSet::only(Ty::Array))` is no plainer
// No type.
pub fn none() -> TypeSet
    ensures { result ≡ set_of [] }
{
    TypeSet::default()
}

// One type.
pub fn only(k: Ty) -> TypeSet
    ensures { result ≡ set_of (k ∷ []) }
{
    TypeSet {
        null: matches!(k, Ty::Null),
        boolean: matches!(k, Ty::Boolean),
        integer: matches!(k, Ty::Integer),
        string: matches!(k, Ty::String),
        date: matches!(k, Ty::Date),
        day: matches!(k, Ty::Day),
        integers: matches!(k, Ty::Integers),
        strings: matches!(k, Ty::Strings),
        array: matches!(k, Ty::Array),
        object: matches!(k, Ty::Object),
        instant: matches!(k, Ty::Instant),
    }
}

// Whether a type is in a set.
pub fn has(s: TypeSet, k: Ty) -> bool
    ensures { result ≡ is_in (types_in s) k }
{
    match k {
        Ty::Null => s.null,
        Ty::Boolean => s.boolean,
        Ty::Integer => s.integer,
        Ty::String => s.string,
        Ty::Date => s.date,
        Ty::Day => s.day,
        Ty::Integers => s.integers,
        Ty::Strings => s.strings,
        Ty::Array => s.array,
        Ty::Object => s.object,
        Ty::Instant => s.instant,
    }
}

// The types of either set.
pub fn union(a: TypeSet, b: TypeSet) -> TypeSet
    ensures { result ≡ set_of (types_in a ++ types_in b) }
{
    TypeSet {
        null: a.null | b.null,
        boolean: a.boolean | b.boolean,
        integer: a.integer | b.integer,
        string: a.string | b.string,
        date: a.date | b.date,
        day: a.day | b.day,
        integers: a.integers | b.integers,
        strings: a.strings | b.strings,
        array: a.array | b.array,
        object: a.object | b.object,
        instant: a.instant | b.instant,
    }
}

// "A word passes where it or a wider one is allowed." `&` and `|`: nothing branches.
#[tactic(auto, using(crate::proofs::Sets::passes_written))]
pub fn passes(a: TypeSet, allowed: TypeSet) -> bool
    ensures { result ≡ allPass (types_in a) (types_in allowed) }
{
    let as_string = allowed.string;
    let as_date = allowed.date | as_string;
    let as_day = allowed.day | as_date;
    let as_array = allowed.array;
    (!a.null | allowed.null)
        & (!a.boolean | allowed.boolean)
        & (!a.integer | allowed.integer)
        & (!a.string | as_string)
        & (!a.date | as_date)
        & (!a.day | as_day)
        & (!a.integers | allowed.integers | as_array)
        & (!a.strings | allowed.strings | as_array)
        & (!a.array | as_array)
        & (!a.object | allowed.object)
        & (!a.instant | allowed.instant)
}

// The scalars; with array and object, and with instant, if these are there too.
fn scalars_with(containers: bool, instant: bool) -> TypeSet
    ensures { result ≡ record { null = true; boolean = true; integer = true; string = true; date = false; day = false; integers = false; strings = false; array = containers; object = containers; instant = instant } }
{
    TypeSet {
        null: true,
        boolean: true,
        integer: true,
        string: true,
        array: containers,
        object: containers,
        instant,
        ..none()
    }
}

// "null, boolean, integer or string (a scalar)"
pub fn scalars() -> TypeSet
    ensures { result ≡ set_of scalarTypes }
{
    scalars_with(false, false)
}

// "null, boolean, integer, string, array, object": whatever a record holds belongs to one of these.
pub fn any_of_record() -> TypeSet
    ensures { result ≡ set_of any_of_record }
{
    scalars_with(true, false)
}

// "those six and instant"
pub fn any_value() -> TypeSet
    ensures { result ≡ set_of any_value }
{
    scalars_with(true, true)
}

// "items of integers are integer, of strings string, of array those seven"
#[tactic(auto, using(crate::proofs::Sets::items_written))]
pub fn items_of(s: TypeSet) -> TypeSet
    ensures { result ≡ set_of (items_types (types_in s)) }
{
    TypeSet {
        null: s.array,
        boolean: s.array,
        integer: s.integers | s.array,
        string: s.strings | s.array,
        array: s.array,
        object: s.array,
        instant: s.array,
        ..none()
    }
}

// The set as a number: bit k stands for the type with the number k.
pub fn bits(s: TypeSet) -> u64
    ensures { result ≡ type_bits (types_in s) }
{
    u64::from(s.null)
        + 2 * u64::from(s.boolean)
        + 4 * u64::from(s.integer)
        + 8 * u64::from(s.string)
        + 16 * u64::from(s.date)
        + 32 * u64::from(s.day)
        + 64 * u64::from(s.integers)
        + 128 * u64::from(s.strings)
        + 256 * u64::from(s.array)
        + 512 * u64::from(s.object)
        + 1024 * u64::from(s.instant)
}

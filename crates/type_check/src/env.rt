// Where a rule stands, and the types of a variable there.
ghost use Rattle.std.specs.Prelude.{◌≡◌, ◌≤◌};
ghost use Rattle.type_check.specs.ByRows.{part_by, lambda_by};
ghost use Rattle.type_check.specs.Inner.{inner_of, VarTypes};

use model::Ty;
use name_index::text::IndexedText;
use octets::path::fragment_end;
use octets::same;
use sheet::listed::types_for;
use type_set::set::{TypeSet, any_value, only};

// Outside every lambda, or in one: the types of `current`, and of `accumulator`.
#[derive(Clone, Copy)]
pub enum Env {
    Outside,
    Lambda(TypeSet, TypeSet),
}

// Where a rule stands, and how deep it nests at most.
#[derive(Clone, Copy)]
pub struct Scope {
    pub env: Env,
    pub deep: usize,
}

// Where the operands of a rule stand.
pub fn inner(s: Scope) -> Scope
    requires { 1 ≤ s.deep }
    ensures { result ≡ inner_of s }
{
    Scope {
        deep: s.deep - 1,
        ..s
    }
}

// "`current` and `accumulator` have their sets"; "a longer path from either has those six and instant".
fn part_types(whole: bool, s: TypeSet) -> TypeSet
    ensures { result ≡ part_by whole s }
{
    if whole { s } else { any_value() }
}

// "the empty path is object"; "any other is null"
fn lambda_types(path: &[u8], current: TypeSet, accumulator: TypeSet) -> TypeSet
    ensures { result ≡ lambda_by path.now current accumulator }
{
    let n = path.len();
    if n == 0 {
        return only(Ty::Object);
    }
    let end = fragment_end(path, 0, b".");
    let first = &path[..end];
    if same(first, b"current") {
        return part_types(end == n, current);
    }
    if same(first, b"accumulator") {
        return part_types(end == n, accumulator);
    }
    only(Ty::Null)
}

// The types of the variable at a path.
pub fn var_types(sheet: IndexedText, path: &[u8], env: Env) -> TypeSet
    ensures { VarTypes sheet.entry.table.now sheet.entry.strings.now path.now env result }
{
    match env {
        Env::Outside => types_for(sheet, path),
        Env::Lambda(current, accumulator) => lambda_types(path, current, accumulator),
    }
}

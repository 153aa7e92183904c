// The kind check of a rule. It recurses by the nesting of the rule only; operands are gone through by a loop.
ghost use Rattle.model.specs.Rule.{if, reduce};
ghost use Rattle.type_check.specs.ByRows.{if_by, reduce_by};
ghost use Rattle.type_check.specs.Contract.{Checks};
ghost use Rattle.type_check.specs.Inner.{Finds, FindsThree, FindsAll};

use crate::env::{Env, Scope, inner, var_types};
use crate::operation::{
    Operands, and_types, branch_types, literal_types, no_operands, one_more, operation_types,
    passing,
};
use model::{MAX_NESTING, Ty};
use name_index::text::IndexedText;
use rule::text::RuleText;
use rule::view::{View, view_at};
use table::node::{Rows, next_row, tail};
use table::string::bytes_of;
use type_set::set::{TypeSet, items_of, only, passes};

// The rule in a row.
#[cycle(find_find_all_find_if_find_reduce)]
fn find(rule: &RuleText, sheet: &IndexedText, row: usize, s: Scope) -> Option<TypeSet>
    ensures { Finds rule.now.table.now rule.now.strings.now sheet.now.table.now sheet.now.strings.now row s result }
{
    match view_at(*rule, row, s.deep) {
        View::Literal(l) => Some(literal_types(rule.strings, l)),
        View::Var(p) => {
            let path = bytes_of(rule.strings, p);
            Some(var_types(*sheet, path, s.env))
        }
        View::If(q) => {
            let s = inner(s);
            find_if(rule, sheet, q, s)
        }
        View::And(q) => {
            let s = inner(s);
            and_types(find_all(rule, sheet, q, s))
        }
        View::Reduce(q) => {
            let s = inner(s);
            find_reduce(rule, sheet, q, s)
        }
        View::Apply(op, q) => {
            let s = inner(s);
            let found = find_all(rule, sheet, q, s);
            operation_types(op, found)
        }
    }
}

// All operands.
#[cycle(find_find_all_find_if_find_reduce)]
fn find_all(rule: &RuleText, sheet: &IndexedText, q: Rows, s: Scope) -> Option<Operands>
    ensures { FindsAll rule.now.table.now rule.now.strings.now sheet.now.table.now sheet.now.strings.now q s result }
{
    let mut o = no_operands();
    let mut rest = q;
    while rest.count > 0 {
        let row = rest.first;
        let types = find(rule, sheet, row, s)?;
        o = one_more(o, types);
        rest = tail(rule.table, rest);
    }
    Some(o)
}

// "Guards may have any words; `if` .. give the union of their results' words".
#[cycle(find_find_all_find_if_find_reduce)]
fn find_if(rule: &RuleText, sheet: &IndexedText, q: Rows, s: Scope) -> Option<TypeSet>
    ensures { FindsThree if if_by rule.now.table.now rule.now.strings.now sheet.now.table.now sheet.now.strings.now q s result }
{
    let row = q.first;
    let _guard = find(rule, sheet, row, s)?;
    let q = tail(rule.table, q);
    branch_types(find_all(rule, sheet, q, s))
}

// "the lambda is checked once with the initial's words as accumulator, its words must pass there, and the initial's words are the result"
#[cycle(find_find_all_find_if_find_reduce)]
fn find_reduce(rule: &RuleText, sheet: &IndexedText, q: Rows, s: Scope) -> Option<TypeSet>
    ensures { FindsThree reduce reduce_by rule.now.table.now rule.now.strings.now sheet.now.table.now sheet.now.strings.now q s result }
{
    let row = q.first;
    let operand = find(rule, sheet, row, s)?;
    let lambda = next_row(rule.table, row);
    let row = next_row(rule.table, lambda);
    let initial = find(rule, sheet, row, s)?;
    if !passes(operand, only(Ty::Array)) {
        return None;
    }
    let env = Env::Lambda(items_of(operand), initial);
    let s = Scope { env, ..s };
    let row = lambda;
    let types = find(rule, sheet, row, s)?;
    passing(types, initial, initial)
}

// The types found for the rule, or that it is not accepted.
pub fn check(rule: RuleText, sheet: IndexedText) -> Option<TypeSet>
    ensures { Checks rule.entry.table.now rule.entry.strings.now sheet.entry.table.now sheet.entry.strings.now result }
{
    let s = Scope {
        env: Env::Outside,
        deep: MAX_NESTING,
    };
    find(&rule, &sheet, 0, s)
}

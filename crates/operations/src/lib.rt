// Operations on operands, whose handles stand on the stack: the first in the cell below `bottom`, each other one below the one before.
#![tactic(auto)]

ghost use Rattle.std.specs.Prelude.{◌≡◌};
ghost use Rattle.heap.specs.Blocks.{stored_from};
ghost use Rattle.operations.specs.Contract.{StackRoom, Applies};
ghost use Rattle.operations.specs.Ended.{operated_end};
ghost use Rattle.operations.specs.Inner.{Compares, listed};
ghost use Rattle.operations.specs.Stack.{stack_cell, first_cell, stacked};

use crate::ended::{Denied, Ended, Given, State};
use heap::areas::Areas;
use heap::cell::{get, put};
use heap::handle::{Form, Handle, compound};
use keywords::Op;
use model::refusal::EvalFault;
use model::{Comparison, Domain};
use op_dates::{date_of_birth, plus_time};
use op_result::Operated;
use op_scalars::compare::{compare, compare_three};
use op_scalars::equal::{equality, membership, negated};
use op_scalars::sum::sum;
use op_uvci::extract;

pub mod ended;

// The operand at a position; null where the stack has none.
#[tactic(auto, unfolding(crate::specs::Stack::stack_cell))]
fn operand(cells: &[u8], bottom: usize, position: usize) -> Handle
    ensures { result ≡ stack_cell cells.now bottom position }
{
    if position < bottom {
        get(cells, bottom - position - 1)
    } else {
        Handle::Null
    }
}

// The first of so many operands; null where there is none.
fn first(cells: &[u8], bottom: usize, count: usize) -> Handle
    ensures { result ≡ first_cell cells.now bottom count }
{
    if count == 0 {
        Handle::Null
    } else {
        operand(cells, bottom, 0)
    }
}

// The operands as one block of cells, from the heap's top on.
fn copy(cells: &mut [u8], count: usize, s: State)
    requires { StackRoom cells.old count s }
    ensures { cells.new ≡ stored_from cells.old s.top (stacked cells.old s.bottom count) }
{
    for i in 0..count {
        let h = operand(cells, s.bottom, i);
        put(cells, s.top + i, h);
    }
}

// An array's value: the list of its operands.
fn list(cells: &mut [u8], count: usize, s: State) -> Ended
    requires { StackRoom cells.old count s }
    ensures { (result ≡ listed count s) × (cells.new ≡ stored_from cells.old s.top (stacked cells.old s.bottom count)) }
{
    copy(cells, count, s);
    Ok(Given {
        value: compound(Form::List, s.top, count),
        state: State {
            top: s.top + count,
            ..s
        },
    })
}

// What an operation gave ends the rule that it stands in.
fn operated(r: Operated, s: State) -> Ended
    ensures { result ≡ operated_end r s }
{
    match r {
        Ok(value) => Ok(Given { value, state: s }),
        Err(fault) => Err(Denied {
            fault: EvalFault::from(fault),
            left: s.left,
        }),
    }
}

fn compared(cells: &[u8], domain: Domain, c: Comparison, bottom: usize, count: usize) -> Operated
    ensures { Compares cells.now domain c bottom count result }
{
    let x = operand(cells, bottom, 0);
    let y = operand(cells, bottom, 1);
    if count == 2 {
        compare(domain, c, x, y)
    } else {
        compare_three(domain, c, x, y, operand(cells, bottom, 2))
    }
}

// An operation on so many operands below the state's bottom. It reads the cells of its own operands only: others may never have been written.
pub fn apply<'a>(
    rule_strings: &'a [u8],
    record_table: &[u8],
    record_strings: &'a [u8],
    cells: &mut [u8],
    op: Op,
    count: usize,
    s: State,
) -> Ended
    requires { StackRoom cells.old count s }
    ensures { Applies rule_strings.now record_strings.now record_table.now cells.old op count s result cells.new }
{
    let x = first(cells, s.bottom, count);
    match op {
        Op::Array => list(cells, count, s),
        Op::Equal => {
            let y = operand(cells, s.bottom, 1);
            operated(equality(rule_strings, record_strings, x, y), s)
        }
        Op::MemberOf => {
            let y = operand(cells, s.bottom, 1);
            let areas = Areas {
                rule_strings,
                record_strings,
                record_table,
                cells,
            };
            let r = membership(areas, x, y);
            operated(r, s)
        }
        Op::Plus => operated(sum(x, operand(cells, s.bottom, 1)), s),
        Op::Not => operated(negated(x), s),
        Op::DateOfBirth => operated(date_of_birth(rule_strings, record_strings, x), s),
        Op::Compare { domain, comparison } => {
            operated(compared(cells, domain, comparison, s.bottom, count), s)
        }
        Op::PlusTime { amount, unit } => {
            operated(plus_time(rule_strings, record_strings, amount, unit, x), s)
        }
        Op::ExtractFromUvci(index) => operated(extract(rule_strings, record_strings, index, x), s),
    }
}

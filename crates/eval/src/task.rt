// What an evaluation does next, by value.
ghost use Rattle.std.specs.Prelude.{◌≡◌};
ghost use Rattle.operations.specs.Ended.{given, denied};

use heap::handle::Handle;
use keywords::Op;
use model::refusal::EvalFault;
use operations::ended::{Denied, Ended, Given, State};

// A rule to evaluate: the row that it stands at, the context, and the state that it begins in.
#[derive(Clone, Copy)]
pub struct Task {
    pub row: usize,
    pub context: Handle,
    pub state: State,
}

// An operation on all its operands: how many stand on the stack, and how many are not begun.
#[derive(Clone, Copy)]
pub struct Pending {
    pub op: Op,
    pub done: usize,
    pub rest: usize,
}

// What an operation does with the value of the operand that is evaluated now. (A closure for each would need a box, and so a heap.)
#[derive(Clone, Copy)]
pub enum Frame {
    // `if`: chooses the branch, which stands after the guard.
    Guard,
    // The chosen branch: its value is the rule's.
    Branch,
    // `and`: goes on while so many operands are left, this one included.
    Conjunct(usize),
    // `reduce`: its operand; the lambda and the initial stand after it.
    Source,
    // Then the initial, and then the lambda on an item: the lambda's row, and the items that are left, by the handle of an array.
    Item { lambda: usize, items: Handle },
    // Any other operation: the value goes on the stack.
    Argument(Pending),
}

// A rule that was begun ends, or asks for the value of an operand: two ways to go on, of which neither is an error.
#[derive(Clone, Copy)]
pub enum Next {
    Ends(Ended),
    Asks(Task, Frame),
}

// The rule ends with a value.
pub fn ends(value: Handle, state: State) -> Next
    ensures { result ≡ Next.Ends (Ok (given value state)) }
{
    Next::Ends(Ok(Given { value, state }))
}

// The rule is refused.
pub fn refused(fault: EvalFault, left: usize) -> Next
    ensures { result ≡ Next.Ends (Err (denied fault left)) }
{
    Next::Ends(Err(Denied { fault, left }))
}

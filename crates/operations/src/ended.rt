// How an evaluation ends, and what travels through it by value.
use heap::handle::Handle;
use model::refusal::EvalFault;

// The steps left; the heap's top: the cells below it are the heap, which only grows; the stack's bottom: the cells from it on hold the operands
// of the rules around; the nesting left.
#[derive(Clone, Copy)]
pub struct State {
    pub left: usize,
    pub top: usize,
    pub bottom: usize,
    pub deep: usize,
}

// A value, and the state after.
#[derive(Clone, Copy)]
pub struct Given {
    pub value: Handle,
    pub state: State,
}

// A refusal, and the steps left.
#[derive(Clone, Copy)]
pub struct Denied {
    pub fault: EvalFault,
    pub left: usize,
}

pub type Ended = Result<Given, Denied>;

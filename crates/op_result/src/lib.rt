// What an operation gives on the handles of its operands: the handle of a value, or 7, 8 or 9.
#![tactic(auto)]

use heap::handle::Handle;
use model::refusal::Fault;

pub type Operated = Result<Handle, Fault>;

// The operands of `plusTime` and `extractFromUVCI`: a rule, and an integer.
ghost use Rattle.std.specs.Prelude.{◌≡◌};
ghost use Rattle.rule.specs.View.{first_of, integer_of};

use table::node::{Node, Rows};

// The first alone: the one rule among the operands of `plusTime` and `extractFromUVCI`.
pub fn first_of(q: Rows) -> Rows
    ensures { result ≡ first_of q }
{
    Rows {
        first: q.first,
        count: 1,
    }
}

// The integer that a node is.
pub fn integer_of(n: Node) -> Option<u64>
    ensures { result ≡ integer_of n }
{
    match n {
        Node::Integer(n) => Some(n),
        _ => None,
    }
}

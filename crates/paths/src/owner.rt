// The array or object whose parts some rows are.
ghost use Rattle.std.specs.Prelude.{true, ◌≡◌};
ghost use Rattle.paths.specs.Inner.{owner_of, AllOf};
ghost use Rattle.table.specs.declared.node.Node.TheVariants.{Array, Object};

use model::MAX_VALUES;
use table::node::{Node, Rows, node_at};

// The value in the row before some rows; null where no text has that row.
#[tactic(auto, unfolding(model::specs::Limits::max_values))]
fn owner(table: &[u8], q: Rows) -> Node
    ensures { result ≡ owner_of table.now q }
{
    if q.first == 0 || q.first > MAX_VALUES {
        return Node::Null;
    }
    node_at(table, q.first - 1)
}

// Whether they are all items of an array. (By `matches!` with this test the proof has no fact of the test; and the two functions are one pattern each, which no parameter says more plainly.)
pub fn are_items(table: &[u8], q: Rows) -> bool
    ensures { result ≡ true → AllOf table.now q (Array q) }
{
    let Node::Array(all) = owner(table, q) else {
        return false;
    };
    all.count == q.count
}

// Whether they are all members of an object.
pub fn are_members(table: &[u8], q: Rows) -> bool
    ensures { result ≡ true → AllOf table.now q (Object q) }
{
    let Node::Object(all) = owner(table, q) else {
        return false;
    };
    all.count == q.count
}

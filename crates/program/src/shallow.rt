// How deep the nodes of an expression stand in each other.
ghost use Rattle.std.specs.Prelude.{◌≡◌};
ghost use Rattle.program.specs.Table.{table};
ghost use Rattle.program.specs.Limits.{shallow};

use crate::node::Node;
use crate::tables::Tables;

// The longest way down through an expression, in nodes.
pub(crate) const DEEPEST: u8 = 10;

impl Tables {
    // Whether no way down from a node is longer than so many nodes.
    pub(crate) fn shallow(&self, most: u8, node: u16) -> bool
        ensures { result ≡ shallow most (table self.now) node }
    {
        if most == 0 {
            return false;
        }
        let below = most - 1;
        match self.node(node) {
            Node::Number(_) => true,
            Node::Read(_) => true,
            Node::Not(part) => self.shallow(below, part),
            Node::Join(_, left, right) => self.shallow(below, left) && self.shallow(below, right),
        }
    }
}

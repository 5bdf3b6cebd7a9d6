// One entry of a table. Past the end there is a value that stands for nothing, so that every call has an answer.
ghost use Rattle.std.specs.Prelude.{◌≡◌, None, slice_index_or};
ghost use Rattle.program.specs.Table.{table, statement_at, entry, node_at};

use crate::expression::Expression;
use crate::node::Node;
use crate::statement::Statement;
use crate::tables::Tables;

impl Tables {
    #[tactic(auto, unfolding(crate::specs::Table::statement_at))]
    pub(crate) fn statement(&self, place: u8) -> Statement
        ensures { result ≡ statement_at (table self.now) place }
    {
        let past = Statement::Return {
            value: Expression::Any,
        };
        self.places.get(usize::from(place)).copied().unwrap_or(past)
    }

    #[tactic(auto, unfolding(crate::specs::Table::node_at))]
    pub(crate) fn node(&self, node: u16) -> Node
        ensures { result ≡ node_at (table self.now) node }
    {
        self.nodes
            .get(usize::from(node))
            .copied()
            .unwrap_or(Node::Number(0))
    }

    #[tactic(auto, unfolding(crate::specs::Table::entry))]
    pub(crate) fn entry(&self, procedure: u8) -> u8
        ensures { result ≡ entry (table self.now) procedure }
    {
        self.procedures
            .get(usize::from(procedure))
            .copied()
            .unwrap_or(0)
    }

    pub(crate) fn goal(&self, global: u8) -> Option<u8>
        ensures { result ≡ slice_index_or (table self.now).goal global None }
    {
        self.goal.get(usize::from(global)).copied().unwrap_or(None)
    }
}

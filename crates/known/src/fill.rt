ghost use Rattle.std.specs.Prelude.{◌≡◌, false, MatchResult};
ghost use Rattle.program.specs.Table.{table};
ghost use Rattle.known.specs.Parts.{parts_table, after_sizes, fits};

use crate::parts::Parts;
use program::no_room::NoRoom;
use program::tables::Tables;

impl Parts<'_> {
    // Fills tables with what is written down, one table after the other.
    pub(crate) fn fill(&self, tables: &mut Tables) -> Result<(), NoRoom>
        requires { table tables.old ≡ after_sizes self.now }
        ensures { MatchResult result (λ _. table tables.new ≡ parts_table self.now) (λ _. fits (parts_table self.now) ≡ false) }
    {
        for node in self.nodes {
            tables.add_node(*node)?;
        }
        for place in self.places {
            tables.add_place(*place)?;
        }
        for entry in self.procedures {
            tables.add_procedure(*entry)?;
        }
        for main in self.mains {
            tables.add_main(*main)?;
        }
        for value in self.start {
            tables.add_start(*value)?;
        }
        for wanted in self.goal {
            tables.add_goal(*wanted)?;
        }
        Ok(())
    }
}

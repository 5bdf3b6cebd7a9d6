// The first flaw of tables, in a fixed order: sizes, lengths, then what each table holds.
ghost use Rattle.std.specs.Prelude.{◌≡◌};
ghost use Rattle.program.specs.Table.{table};
ghost use Rattle.program.specs.Flaws.{code_flaw, list_flaw, flaw};

use crate::flaw::Flaw;
use crate::tables::Tables;

impl Tables {
    // What keeps the tables from being a program, if anything does.
    #[tactic(auto, unfolding(crate::specs::Flaws::flaw))]
    pub fn flaw(&self) -> Option<Flaw>
        ensures { result ≡ flaw (table self.now) }
    {
        self.size_flaw()
            .or_else(|| self.most_flaw())
            .or_else(|| self.each_flaw())
            .or_else(|| self.code_flaw())
            .or_else(|| self.list_flaw())
    }

    fn code_flaw(&self) -> Option<Flaw>
        ensures { result ≡ code_flaw (table self.now) }
    {
        self.place_flaw()
            .or_else(|| self.node_flaw())
            .or_else(|| self.depth_flaw())
    }

    fn list_flaw(&self) -> Option<Flaw>
        ensures { result ≡ list_flaw (table self.now) }
    {
        self.procedure_flaw()
            .or_else(|| self.main_flaw())
            .or_else(|| self.start_flaw())
            .or_else(|| self.goal_flaw())
    }
}

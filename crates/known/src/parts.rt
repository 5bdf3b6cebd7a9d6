ghost use Rattle.std.specs.Result.{MatchResult};
ghost use Rattle.known.specs.Parts.{parts_table, Holds, Fault};

use crate::error::KnownError;
use program::node::Node;
use program::program::Program;
use program::statement::Statement;
use program::tables::Tables;
use std::alloc::Global;

// A program written down: its sizes and its tables, entry for entry. It has the fields of `Tables`, but borrowed, so that
// a known program is a constant. The sizes stand beside the tables, whose lengths they should be, as tables may be wrong
// and tests of flaws write such.
#[derive(Clone, Copy)]
pub struct Parts<'a> {
    pub values: u8,
    pub globals: u8,
    pub buffers: u8,
    pub levels: u8,
    pub nodes: &'a [Node],
    pub places: &'a [Statement],
    // first places
    pub procedures: &'a [u8],
    pub mains: &'a [u8],
    // for each global its start value, and what the goal asks of it
    pub start: &'a [u8],
    pub goal: &'a [Option<u8>],
}

impl Parts<'_> {
    // The program that is written down here. Each known program has a function of its own, since its contract names its
    // own table.
    pub fn program(&self, heap: Global) -> Result<Program, KnownError>
        ensures { MatchResult result (Holds (parts_table self.now)) (Fault (parts_table self.now)) }
    {
        let mut tables = Tables::reserve(heap)?;
        tables.set_sizes(self.values, self.globals, self.buffers, self.levels);
        self.fill(&mut tables)?;
        Ok(Program::new(tables)?)
    }
}

// What a program tells of its tables.
ghost use Rattle.std.specs.Prelude.{◌≡◌, ◌≤◌, length, None, slice_index_or};
ghost use Rattle.program.specs.Table.{statement_at, entry};
ghost use Rattle.program.specs.Programs.{told};

use crate::program::Program;
use crate::statement::Statement;

impl Program {
    // How many values there are.
    pub fn values(&self) -> u8
        ensures told { result ≡ (told self.now).values }
        ensures least { 2 ≤ result }
        ensures most { result ≤ 16 }
    {
        self.tables.values
    }

    pub fn globals(&self) -> u8
        ensures told { result ≡ (told self.now).globals }
        ensures least { 1 ≤ result }
        ensures most { result ≤ 8 }
    {
        self.tables.globals
    }

    pub fn buffers(&self) -> u8
        ensures told { result ≡ (told self.now).buffers }
        ensures least { 1 ≤ result }
        ensures most { result ≤ 3 }
    {
        self.tables.buffers
    }

    pub fn levels(&self) -> u8
        ensures told { result ≡ (told self.now).levels }
        ensures least { 1 ≤ result }
        ensures most { result ≤ 4 }
    {
        self.tables.levels
    }

    // How many places there are.
    pub fn places(&self) -> u8
        ensures told { result ≡ length (told self.now).places }
        ensures most { result ≤ 200 }
    {
        self.tables.places.len() as u8
    }

    // How many procedures there are besides the mains.
    pub fn procedures(&self) -> u8
        ensures told { result ≡ length (told self.now).procedures }
        ensures most { result ≤ 16 }
    {
        self.tables.procedures.len() as u8
    }

    // What stands at a place.
    pub fn statement(&self, place: u8) -> Statement
        ensures { result ≡ statement_at (told self.now) place }
    {
        self.tables.statement(place)
    }

    // The first place of a procedure.
    pub fn entry(&self, procedure: u8) -> u8
        ensures { result ≡ entry (told self.now) procedure }
    {
        self.tables.entry(procedure)
    }

    // The first place of each buffer's main.
    pub fn mains(&self) -> &[u8]
        ensures { result.now ≡ (told self.now).mains }
    {
        self.tables.mains.as_slice()
    }

    // The value of each global at the start.
    pub fn start(&self) -> &[u8]
        ensures { result.now ≡ (told self.now).start }
    {
        self.tables.start.as_slice()
    }

    // The value of a global at the goal, where one is asked for.
    pub fn goal(&self, global: u8) -> Option<u8>
        ensures { result ≡ slice_index_or (told self.now).goal global None }
    {
        self.tables.goal(global)
    }
}

// Programs are made from tables without a flaw, and give them back.
ghost use Rattle.std.specs.Prelude.{◌≡◌, Some, None, MatchResult};
ghost use Rattle.program.specs.Table.{table};
ghost use Rattle.program.specs.Limits.{Sound};
ghost use Rattle.program.specs.Flaws.{flaw};
ghost use Rattle.program.specs.Programs.{told};

use crate::program::Program;
use crate::refused::Refused;
use crate::tables::Tables;

impl Program {
    // The program that the tables hold, or their first flaw. Tables have no flaw exactly where they keep all limits.
    pub fn new(tables: Tables) -> Result<Program, Refused>
        ensures made { MatchResult result (λ p. (told p ≡ table tables) × (flaw (table tables) ≡ None)) (λ e. (flaw (table tables) ≡ Some e.flaw) × (table e.tables ≡ table tables)) }
        ensures law { (Sound (table tables) → flaw (table tables) ≡ None) × (flaw (table tables) ≡ None → Sound (table tables)) }
    {
        match tables.flaw() {
            Some(flaw) => Err(Refused { flaw, tables }),
            None => Ok(Program { tables }),
        }
    }

    // The tables, to be filled anew.
    pub fn into_tables(self) -> Tables
        ensures { table result ≡ told self }
    {
        let Program { tables } = self;
        tables
    }
}

// Whether there are as many values, globals, buffers and levels as a program may have, and as long tables.
ghost use Rattle.std.specs.Prelude.{◌≡◌};
ghost use Rattle.program.specs.Table.{table};
ghost use Rattle.program.specs.Flaws.{within, size_flaw, most_flaw, each_flaw};

use crate::flaw::Flaw;
use crate::limits::{
    MOST_BUFFERS, MOST_GLOBALS, MOST_LEVELS, MOST_NODES, MOST_PLACES, MOST_PROCEDURES, MOST_VALUES,
};
use crate::tables::Tables;

fn within(least: u8, n: u8, most: u8) -> bool
    ensures { result ≡ within least n most }
{
    (least..=most).contains(&n)
}

impl Tables {
    // The first size that is out of range.
    pub(crate) fn size_flaw(&self) -> Option<Flaw>
        ensures { result ≡ size_flaw (table self.now) }
    {
        if !within(2, self.values, MOST_VALUES) {
            Some(Flaw::Values)
        } else if !within(1, self.globals, MOST_GLOBALS) {
            Some(Flaw::Globals)
        } else if !within(1, self.buffers, MOST_BUFFERS) {
            Some(Flaw::Buffers)
        } else if !within(1, self.levels, MOST_LEVELS) {
            Some(Flaw::Levels)
        } else {
            None
        }
    }

    // The first table that is too long. Tables with the right room never have one; it is told all the same, since what a
    // flaw is says nothing of rooms.
    pub(crate) fn most_flaw(&self) -> Option<Flaw>
        ensures { result ≡ most_flaw (table self.now) }
    {
        if self.places.len() > MOST_PLACES {
            Some(Flaw::Places)
        } else if self.procedures.len() > MOST_PROCEDURES {
            Some(Flaw::Procedures)
        } else if self.nodes.len() > MOST_NODES {
            Some(Flaw::Nodes)
        } else {
            None
        }
    }

    // The first table that has not one entry for each buffer, or for each global.
    pub(crate) fn each_flaw(&self) -> Option<Flaw>
        ensures { result ≡ each_flaw (table self.now) }
    {
        if self.mains.len() != usize::from(self.buffers) {
            Some(Flaw::Mains)
        } else if self.start.len() != usize::from(self.globals) {
            Some(Flaw::Start)
        } else if self.goal.len() != usize::from(self.globals) {
            Some(Flaw::Goal)
        } else {
            None
        }
    }
}

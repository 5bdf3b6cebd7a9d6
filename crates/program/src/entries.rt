// The first entry of each table that names what is not there, or holds what is no value. Each is one chain over its own
// table: one function for all would take the table, the test and the flaw, and be the same `position` and `map`.
ghost use Rattle.std.specs.Prelude.{◌≡◌};
ghost use Rattle.program.specs.Table.{table};
ghost use Rattle.program.specs.Flaws.{place_flaw, node_flaw, depth_flaw, procedure_flaw, main_flaw, start_flaw, goal_flaw};

use crate::flaw::Flaw;
use crate::shallow::DEEPEST;
use crate::tables::Tables;

impl Tables {
    pub(crate) fn place_flaw(&self) -> Option<Flaw>
        ensures { result ≡ place_flaw (table self.now) }
    {
        self.places
            .iter()
            .position(|statement| !self.linked(*statement))
            .map(|place| Flaw::Place(place as u8))
    }

    pub(crate) fn node_flaw(&self) -> Option<Flaw>
        ensures { result ≡ node_flaw (table self.now) }
    {
        self.nodes
            .iter()
            .position(|node| !self.sound_node(*node))
            .map(|node| Flaw::Node(node as u16))
    }

    pub(crate) fn depth_flaw(&self) -> Option<Flaw>
        ensures { result ≡ depth_flaw (table self.now) }
    {
        (0..self.nodes.len() as u16)
            .find(|node| !self.shallow(DEEPEST, *node))
            .map(Flaw::Depth)
    }

    pub(crate) fn procedure_flaw(&self) -> Option<Flaw>
        ensures { result ≡ procedure_flaw (table self.now) }
    {
        self.procedures
            .iter()
            .position(|entry| !self.has_place(*entry))
            .map(|procedure| Flaw::Procedure(procedure as u8))
    }

    pub(crate) fn main_flaw(&self) -> Option<Flaw>
        ensures { result ≡ main_flaw (table self.now) }
    {
        self.mains
            .iter()
            .position(|entry| !self.has_place(*entry))
            .map(|buffer| Flaw::Main(buffer as u8))
    }

    pub(crate) fn start_flaw(&self) -> Option<Flaw>
        ensures { result ≡ start_flaw (table self.now) }
    {
        self.start
            .iter()
            .position(|value| !self.is_value(*value))
            .map(|global| Flaw::StartValue(global as u8))
    }

    pub(crate) fn goal_flaw(&self) -> Option<Flaw>
        ensures { result ≡ goal_flaw (table self.now) }
    {
        self.goal
            .iter()
            .position(|value| !self.sound_goal(*value))
            .map(|global| Flaw::GoalValue(global as u8))
    }
}

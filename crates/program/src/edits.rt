// How tables are filled. None of these calls wants memory; what has no room is left out. Each call that adds an entry
// is `push` with its own table and the room that it has.
ghost use Rattle.std.specs.Prelude.{◌≡◌, is_ok, length, nat_lt};
ghost use Rattle.std.specs.Result.{result_ok};
ghost use Rattle.program.specs.Table.{table};
ghost use Rattle.program.specs.Edits.{empty, has_room, next_number, with_sizes, with_place, with_statement, with_node, with_procedure, with_main, with_start_value, with_goal_value};

use crate::limits::{MOST_BUFFERS, MOST_GLOBALS, MOST_NODES, MOST_PLACES, MOST_PROCEDURES};
use crate::no_place::NoPlace;
use crate::no_room::NoRoom;
use crate::node::Node;
use crate::push::push;
use crate::statement::Statement;
use crate::tables::Tables;

impl Tables {
    // The four sizes, in the order in which a written program begins with them.
    pub fn set_sizes(&mut self, values: u8, globals: u8, buffers: u8, levels: u8)
        ensures { table self.new ≡ with_sizes (table self.old) values globals buffers levels }
    {
        self.values = values;
        self.globals = globals;
        self.buffers = buffers;
        self.levels = levels;
    }

    // One more place, and its number.
    #[tactic(auto, unfolding(crate::specs::Edits::with_place))]
    pub fn add_place(&mut self, statement: Statement) -> Result<u8, NoRoom>
        ensures number { result_ok result ≡ next_number (table self.old).places MOST_PLACES }
        ensures after { table self.new ≡ with_place (table self.old) statement }
    {
        let number = push(&mut self.places, MOST_PLACES, statement)?;
        Ok(number as u8)
    }

    // Another statement at a place that is there already.
    #[tactic(auto, unfolding(crate::specs::Edits::with_statement))]
    pub fn set_place(&mut self, place: u8, statement: Statement) -> Result<(), NoPlace>
        ensures told { is_ok result ≡ nat_lt place (length (table self.old).places) }
        ensures after { table self.new ≡ with_statement (table self.old) place statement }
    {
        let at = self.places.get_mut(usize::from(place)).ok_or(NoPlace)?;
        *at = statement;
        Ok(())
    }

    // One more node, and its number.
    #[tactic(auto, unfolding(crate::specs::Edits::with_node))]
    pub fn add_node(&mut self, node: Node) -> Result<u16, NoRoom>
        ensures number { result_ok result ≡ next_number (table self.old).nodes MOST_NODES }
        ensures after { table self.new ≡ with_node (table self.old) node }
    {
        let number = push(&mut self.nodes, MOST_NODES, node)?;
        Ok(number as u16)
    }

    // One more procedure by its first place, and its number.
    #[tactic(auto, unfolding(crate::specs::Edits::with_procedure))]
    pub fn add_procedure(&mut self, entry: u8) -> Result<u8, NoRoom>
        ensures number { result_ok result ≡ next_number (table self.old).procedures MOST_PROCEDURES }
        ensures after { table self.new ≡ with_procedure (table self.old) entry }
    {
        let number = push(&mut self.procedures, MOST_PROCEDURES, entry)?;
        Ok(number as u8)
    }

    // The main of the next buffer, by its first place.
    #[tactic(auto, unfolding(crate::specs::Edits::with_main))]
    pub fn add_main(&mut self, entry: u8) -> Result<(), NoRoom>
        ensures told { is_ok result ≡ has_room (table self.old).mains MOST_BUFFERS }
        ensures after { table self.new ≡ with_main (table self.old) entry }
    {
        push(&mut self.mains, usize::from(MOST_BUFFERS), entry)?;
        Ok(())
    }

    // The start value of the next global.
    #[tactic(auto, unfolding(crate::specs::Edits::with_start_value))]
    pub fn add_start(&mut self, value: u8) -> Result<(), NoRoom>
        ensures told { is_ok result ≡ has_room (table self.old).start MOST_GLOBALS }
        ensures after { table self.new ≡ with_start_value (table self.old) value }
    {
        push(&mut self.start, usize::from(MOST_GLOBALS), value)?;
        Ok(())
    }

    // What the goal asks of the next global.
    #[tactic(auto, unfolding(crate::specs::Edits::with_goal_value))]
    pub fn add_goal(&mut self, value: Option<u8>) -> Result<(), NoRoom>
        ensures told { is_ok result ≡ has_room (table self.old).goal MOST_GLOBALS }
        ensures after { table self.new ≡ with_goal_value (table self.old) value }
    {
        push(&mut self.goal, usize::from(MOST_GLOBALS), value)?;
        Ok(())
    }

    // Empties the tables, and keeps their room.
    pub fn clear(&mut self)
        ensures { table self.new ≡ empty }
    {
        self.set_sizes(0, 0, 0, 0);
        self.places.clear();
        self.nodes.clear();
        self.procedures.clear();
        self.mains.clear();
        self.start.clear();
        self.goal.clear();
    }
}

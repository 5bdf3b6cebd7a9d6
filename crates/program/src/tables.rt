ghost use Rattle.std.specs.Prelude.{◌≤◌, length, vec_capacity};
ghost use Rattle.program.specs.declared.limits.TheConstants.{MOST_BUFFERS, MOST_GLOBALS, MOST_NODES, MOST_PLACES, MOST_PROCEDURES};

use crate::node::Node;
use crate::statement::Statement;

// What a program is made of. Places, nodes and procedures go by their numbers from 0. The room for the largest
// program is there from the start, so that filling the tables never wants memory, and no table is longer than a
// program's, so that the numbers of its entries fit.
#[derive(Drop)]
pub struct Tables {
    // how many values there are
    pub(crate) values: u8,
    pub(crate) globals: u8,
    pub(crate) buffers: u8,
    pub(crate) levels: u8,
    pub(crate) places: Vec<Statement>,
    pub(crate) nodes: Vec<Node>,
    // the first place of each procedure
    pub(crate) procedures: Vec<u8>,
    // the first place of each buffer's main
    pub(crate) mains: Vec<u8>,
    // the value of each global at the start
    pub(crate) start: Vec<u8>,
    // the value of each global at the goal, where one is asked for; a table of its own, since either of the two may
    // have another length than there are globals, and the flaw that is told then names the one
    pub(crate) goal: Vec<Option<u8>>,
    ghost room_for_places: { MOST_PLACES ≤ vec_capacity places },
    ghost room_for_nodes: { MOST_NODES ≤ vec_capacity nodes },
    ghost room_for_procedures: { MOST_PROCEDURES ≤ vec_capacity procedures },
    ghost room_for_mains: { MOST_BUFFERS ≤ vec_capacity mains },
    ghost room_for_start: { MOST_GLOBALS ≤ vec_capacity start },
    ghost room_for_goal: { MOST_GLOBALS ≤ vec_capacity goal },
    ghost few_places: { length places.items ≤ MOST_PLACES },
    ghost few_nodes: { length nodes.items ≤ MOST_NODES },
    ghost few_procedures: { length procedures.items ≤ MOST_PROCEDURES },
    ghost few_mains: { length mains.items ≤ MOST_BUFFERS },
    ghost few_start: { length start.items ≤ MOST_GLOBALS },
    ghost few_goal: { length goal.items ≤ MOST_GLOBALS },
}

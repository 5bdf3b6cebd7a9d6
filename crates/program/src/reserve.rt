ghost use Rattle.std.specs.Prelude.{◌≡◌, IfOk};
ghost use Rattle.program.specs.Table.{table};
ghost use Rattle.program.specs.Edits.{empty};

use crate::limits::{MOST_BUFFERS, MOST_GLOBALS, MOST_NODES, MOST_PLACES, MOST_PROCEDURES};
use crate::tables::Tables;
use std::alloc::{AllocError, Global};

impl Tables {
    // Empty tables, with the room for the largest program. All memory is asked for here.
    pub fn reserve(heap: Global) -> Result<Tables, AllocError>
        ensures { IfOk result (λ t. table t ≡ empty) }
    {
        let places = Vec::with_capacity(heap, MOST_PLACES)?;
        let nodes = Vec::with_capacity(heap, MOST_NODES)?;
        let procedures = Vec::with_capacity(heap, MOST_PROCEDURES)?;
        let mains = Vec::with_capacity(heap, usize::from(MOST_BUFFERS))?;
        let start = Vec::with_capacity(heap, usize::from(MOST_GLOBALS))?;
        let goal = Vec::with_capacity(heap, usize::from(MOST_GLOBALS))?;
        Ok(Tables {
            values: 0,
            globals: 0,
            buffers: 0,
            levels: 0,
            places,
            nodes,
            procedures,
            mains,
            start,
            goal,
        })
    }
}

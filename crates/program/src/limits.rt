// The most that a program has of each; `Sound` and the edits of tables have the same in specs/.
pub const MOST_VALUES: u8 = 16;

pub const MOST_GLOBALS: u8 = 8;

pub const MOST_BUFFERS: u8 = 3;

pub const MOST_LEVELS: u8 = 4;

pub const MOST_PLACES: usize = 200;

pub const MOST_PROCEDURES: usize = 16;

pub const MOST_NODES: usize = 4096;

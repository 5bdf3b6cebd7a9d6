use crate::stack::Stack;
use crate::task::Task;
use fixed::fixed_vec::FixedVec;

// A buffer: its stack, and up to 6 pending tasks.
#[derive(Clone, Copy)]
pub struct Buffer {
    pub(crate) stack: Stack,
    pub(crate) tasks: FixedVec<Task, 6>,
}

// What tells the steps of one statement apart.
#[derive(Clone, Copy, PartialEq, Eq, Debug)]
pub enum Choice {
    // there is only one
    Plain,
    // the way that a test goes
    Truth(bool),
    // the value that an expression takes
    Value(u8),
    // the buffer that becomes active
    Buffer(u8),
    // the pending task that is dispatched, by its number in the line's order
    Task(u8),
}

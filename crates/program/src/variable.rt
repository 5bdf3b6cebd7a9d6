// A variable: a global by its number, or the frame's own value l.
#[derive(Clone, Copy, PartialEq, Eq, Debug)]
pub enum Variable {
    Global(u8),
    Local,
}

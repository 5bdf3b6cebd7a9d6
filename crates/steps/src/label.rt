use crate::choice::Choice;
use program::kind::Kind;

// A step before it is taken: its kind, its choice, and whether its result fits the space.
#[derive(Clone, Copy, PartialEq, Eq, Debug)]
pub struct Label {
    pub kind: Kind,
    pub choice: Choice,
    pub fits: bool,
}

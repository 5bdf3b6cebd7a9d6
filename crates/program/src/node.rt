use crate::operator::Operator;
use crate::variable::Variable;

// A part of an expression. It names its own parts by their numbers in the table of nodes, since the room for all nodes is
// there before the first is made.
#[derive(Clone, Copy, PartialEq, Eq, Debug)]
pub enum Node {
    Number(u8),
    Read(Variable),
    Not(u16),
    Join(Operator, u16, u16),
}

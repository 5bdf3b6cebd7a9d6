// Tables for the tests of flaws, and a flaw as a word and a number.
use known::error::KnownError;
use known::parts::Parts;
use program::expression::Expression;
use program::flaw::Flaw;
use program::node::Node;
use program::statement::Statement;
use std::alloc::Global;

pub(crate) const END: Statement = Statement::Return {
    value: Expression::Of(0),
};

// The smallest program: one place, at which main ends.
pub(crate) const SOUND: Parts<'static> = Parts {
    values: 2,
    globals: 1,
    buffers: 1,
    levels: 1,
    nodes: &[Node::Number(0)],
    places: &[END],
    procedures: &[0],
    mains: &[0],
    start: &[0],
    goal: &[None],
};

// A flaw's name, and the number that it names or 0: by word and number, as the lists of tests write them.
fn named(flaw: Flaw) -> (&'static str, u16) {
    match flaw {
        Flaw::Values => ("values", 0),
        Flaw::Globals => ("globals", 0),
        Flaw::Buffers => ("buffers", 0),
        Flaw::Levels => ("levels", 0),
        Flaw::Places => ("places", 0),
        Flaw::Procedures => ("procedures", 0),
        Flaw::Nodes => ("nodes", 0),
        Flaw::Mains => ("mains", 0),
        Flaw::Start => ("start", 0),
        Flaw::Goal => ("goal", 0),
        Flaw::Place(place) => ("place", u16::from(place)),
        Flaw::Node(node) => ("node", node),
        Flaw::Depth(node) => ("depth", node),
        Flaw::Procedure(procedure) => ("procedure", u16::from(procedure)),
        Flaw::Main(buffer) => ("main", u16::from(buffer)),
        Flaw::StartValue(global) => ("start value", u16::from(global)),
        Flaw::GoalValue(global) => ("goal value", u16::from(global)),
    }
}

// Why there is no program, or "none" where there is one.
pub(crate) fn fault(heap: Global, parts: Parts) -> (&'static str, u16) {
    match parts.program(heap) {
        Ok(_) => ("none", 0),
        Err(KnownError::Memory) => ("memory", 0),
        Err(KnownError::Room) => ("room", 0),
        Err(KnownError::Flawed(flaw)) => named(flaw),
    }
}

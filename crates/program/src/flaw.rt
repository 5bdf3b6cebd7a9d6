ghost use Rattle.std.specs.Prelude.{Some};
ghost use Rattle.program.specs.FlawTexts.{flaw_text};

use std::error::Error;
use std::fmt;

// What keeps tables from being a program: the first thing that is outside the limits. An entry of a table is told by its
// number there.
#[derive(Clone, Copy, PartialEq, Eq, Debug)]
pub enum Flaw {
    // too few or too many of them
    Values,
    Globals,
    Buffers,
    Levels,
    // too many of them: tables with the room of `Tables::reserve` never are, but what a flaw is says nothing of rooms
    Places,
    Procedures,
    Nodes,
    // not one main for each buffer, not one start value and not one goal entry for each global
    Mains,
    Start,
    Goal,
    // the statement at this place names a place, an expression, a variable, a procedure or a level that is not there
    Place(u8),
    // the node holds a number that is no value, or names a variable or a node that is not there
    Node(u16),
    // a way down from the node is too long
    Depth(u16),
    // a first place that is not there
    Procedure(u8),
    Main(u8),
    // a number that is no value, by its global
    StartValue(u8),
    GoalValue(u8),
}

impl Error for Flaw {}

impl fmt::Display for Flaw {
    ghost output = { λ flaw. Some (flaw_text flaw) };

    fn fmt<W: fmt::Write>(&self, f: &mut fmt::Formatter<W>) -> fmt::Result {
        match *self {
            Flaw::Values => f.write_str("too few or too many values"),
            Flaw::Globals => f.write_str("too few or too many globals"),
            Flaw::Buffers => f.write_str("too few or too many buffers"),
            Flaw::Levels => f.write_str("too few or too many levels"),
            Flaw::Places => f.write_str("too many places"),
            Flaw::Procedures => f.write_str("too many procedures"),
            Flaw::Nodes => f.write_str("too many nodes"),
            Flaw::Mains => f.write_str("not one main for each buffer"),
            Flaw::Start => f.write_str("not one start value for each global"),
            Flaw::Goal => f.write_str("not one goal entry for each global"),
            Flaw::Place(place) => write!(f, "place {place} names what is not there"),
            Flaw::Node(node) => write!(f, "node {node} holds what is not there"),
            Flaw::Depth(node) => write!(f, "node {node} is too deep"),
            Flaw::Procedure(procedure) => write!(f, "procedure {procedure} has no first place"),
            Flaw::Main(buffer) => write!(f, "main {buffer} has no first place"),
            Flaw::StartValue(global) => write!(f, "the start of global {global} is no value"),
            Flaw::GoalValue(global) => write!(f, "the goal of global {global} is no value"),
        }
    }
}

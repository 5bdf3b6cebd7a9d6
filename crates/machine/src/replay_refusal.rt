ghost use Rattle.std.specs.Prelude.{◌≡◌, Some};
ghost use Rattle.machine.specs.Numbers.{replay_number};
ghost use Rattle.machine.specs.Texts.{replay_text};

use crate::refusal::Refusal;
use std::error::Error;
use std::fmt;

// Why a replay is refused. A case that holds a place can state no number, so the machine's refusals give it.
#[derive(Clone, Copy, PartialEq, Eq, Debug, Drop)]
pub enum ReplayRefusal {
    // an area of the wrong length, or a machine that is too wide
    Length,
    // a step number that is not in the list, and its place
    NoStep(usize),
}

impl ReplayRefusal {
    pub fn number(self) -> u8
        ensures { result ≡ replay_number self }
    {
        match self {
            ReplayRefusal::Length => Refusal::Length.number(),
            ReplayRefusal::NoStep(_) => Refusal::NoStep.number(),
        }
    }
}

impl Error for ReplayRefusal {}

impl fmt::Display for ReplayRefusal {
    ghost output = { λ r. Some (replay_text r) };

    fn fmt<W: fmt::Write>(&self, f: &mut fmt::Formatter<W>) -> fmt::Result {
        match self {
            ReplayRefusal::Length => f.write_str("an area of the wrong length"),
            ReplayRefusal::NoStep(place) => {
                write!(f, "no step of the number at place {}", place)
            }
        }
    }
}

ghost use Rattle.std.specs.Prelude.{◌≡◌, Some};
ghost use Rattle.machine.specs.Numbers.{number};
ghost use Rattle.machine.specs.Texts.{text};

use std::error::Error;
use std::fmt;

// Why a call of a machine is refused.
#[derive(Clone, Copy, PartialEq, Eq, Debug, Drop)]
pub enum Refusal {
    // a line or an area of the wrong length, or a machine that is too wide
    Length = 10,
    // a step number that is not in the list
    NoStep = 11,
}

impl Refusal {
    pub fn number(self) -> u8
        ensures { result ≡ number self }
    {
        self as u8
    }
}

impl Error for Refusal {}

impl fmt::Display for Refusal {
    ghost output = { λ r. Some (text r) };

    fn fmt<W: fmt::Write>(&self, f: &mut fmt::Formatter<W>) -> fmt::Result {
        match self {
            Refusal::Length => f.write_str("a line or an area of the wrong length"),
            Refusal::NoStep => f.write_str("no step of that number"),
        }
    }
}

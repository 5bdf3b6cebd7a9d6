ghost use Rattle.std.specs.Prelude.{Some, codes};

use std::error::Error;
use std::fmt;

// An area has not the length of a line.
#[derive(Clone, Copy, PartialEq, Eq, Debug, Drop)]
pub struct WrongLength;

impl Error for WrongLength {}

impl fmt::Display for WrongLength {
    ghost output = { λ _. Some (codes "not the length of a line") };

    fn fmt<W: fmt::Write>(&self, f: &mut fmt::Formatter<W>) -> fmt::Result {
        f.write_str("not the length of a line")
    }
}

ghost use Rattle.std.specs.Prelude.{Some, ◌++◌, codes};
ghost use Rattle.std.specs.Fmt.{decimal};

use std::error::Error;
use std::fmt;

// A byte that no case has, where one of a few cases is meant.
#[derive(Clone, Copy, PartialEq, Eq, Debug, Drop)]
pub struct UnknownByte(pub u8);

impl Error for UnknownByte {}

impl fmt::Display for UnknownByte {
    ghost output = { λ e. Some (codes "no case has the byte " ++ decimal e.0) };

    fn fmt<W: fmt::Write>(&self, f: &mut fmt::Formatter<W>) -> fmt::Result {
        write!(f, "no case has the byte {}", self.0)
    }
}

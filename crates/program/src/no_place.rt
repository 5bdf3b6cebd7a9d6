ghost use Rattle.std.specs.Prelude.{Some, codes};

use std::error::Error;
use std::fmt;

// What tables tell of a place that they do not have.
#[derive(Clone, Copy, PartialEq, Eq, Debug)]
pub struct NoPlace;

impl Error for NoPlace {}

impl fmt::Display for NoPlace {
    ghost output = { λ _. Some (codes "no place has this number") };

    fn fmt<W: fmt::Write>(&self, f: &mut fmt::Formatter<W>) -> fmt::Result {
        f.write_str("no place has this number")
    }
}

ghost use Rattle.std.specs.Prelude.{Some, codes};

use std::error::Error;
use std::fmt;

// There is no room for another item.
#[derive(Clone, Copy, PartialEq, Eq, Debug, Drop)]
pub struct Full;

impl Error for Full {}

impl fmt::Display for Full {
    ghost output = { λ _. Some (codes "no room for another item") };

    fn fmt<W: fmt::Write>(&self, f: &mut fmt::Formatter<W>) -> fmt::Result {
        f.write_str("no room for another item")
    }
}

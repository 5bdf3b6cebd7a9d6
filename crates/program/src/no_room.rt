ghost use Rattle.std.specs.Prelude.{Some, codes};

use std::error::Error;
use std::fmt;

// What a full table tells of one entry more, which is left out.
#[derive(Clone, Copy, PartialEq, Eq, Debug)]
pub struct NoRoom;

impl Error for NoRoom {}

impl fmt::Display for NoRoom {
    ghost output = { λ _. Some (codes "no room for another entry") };

    fn fmt<W: fmt::Write>(&self, f: &mut fmt::Formatter<W>) -> fmt::Result {
        f.write_str("no room for another entry")
    }
}

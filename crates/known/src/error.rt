ghost use Rattle.std.specs.Prelude.{◌≡◌, Some};
ghost use Rattle.known.specs.declared.error.KnownError.TheVariants.{Memory, Room, Flawed};
ghost use Rattle.known.specs.ErrorTexts.{error_text};

use program::flaw::Flaw;
use program::no_room::NoRoom;
use program::refused::Refused;
use std::alloc::AllocError;
use std::error::Error;
use std::fmt;

// Why a program is not made.
#[derive(Clone, Copy, PartialEq, Eq, Debug)]
pub enum KnownError {
    // there is no memory for its tables
    Memory,
    // it has more entries than a table has room for
    Room,
    // its tables are no program
    Flawed(Flaw),
}

impl Error for KnownError {}

impl fmt::Display for KnownError {
    ghost output = { λ e. Some (error_text e) };

    fn fmt<W: fmt::Write>(&self, f: &mut fmt::Formatter<W>) -> fmt::Result {
        match *self {
            KnownError::Memory => f.write_str("no memory for the tables"),
            KnownError::Room => f.write_str("no room for all entries"),
            KnownError::Flawed(flaw) => write!(f, "the tables are no program: {flaw}"),
        }
    }
}

impl From<AllocError> for KnownError {
    ghost from_gives = { λ _ r. r ≡ Memory };

    fn from(_: AllocError) -> Self {
        Self::Memory
    }
}

impl From<NoRoom> for KnownError {
    ghost from_gives = { λ _ r. r ≡ Room };

    fn from(_: NoRoom) -> Self {
        Self::Room
    }
}

impl From<Refused> for KnownError {
    ghost from_gives = { λ e r. r ≡ Flawed e.flaw };

    fn from(refused: Refused) -> Self {
        Self::Flawed(refused.flaw)
    }
}

ghost use Rattle.std.specs.Prelude.{◌≡◌, Some};
ghost use Rattle.std.specs.Fmt.{styled_text};
ghost use Rattle.clip.specs.Bytes.{Decodes};
ghost use Rattle.clip.specs.Kinds.{number, named};

use crate::unknown_byte::UnknownByte;
use std::fmt;

// The kinds of steps.
#[derive(Clone, Copy, PartialEq, Eq, Debug)]
pub enum Kind {
    // the monitor takes a reading
    Read = 0,
    // the monitor sees that it clipped, and posts the handler
    Clip = 1,
    // the monitor posts the picker
    Post = 2,
    // a pending task begins to run
    Dispatch = 3,
    // the handler marks the reading
    Mark = 4,
    // the picker takes the reading, and picks a field
    Pick = 5,
    // the picker passes over a marked reading
    Pass = 6,
}

impl Kind {
    // The number by which a step tells its kind.
    pub fn number(self) -> u8
        ensures { result ≡ number self }
    {
        self as u8
    }

    // The word by which it is printed.
    pub fn name(self) -> &'static str
        ensures { result.now ≡ named self }
    {
        match self {
            Kind::Read => "read",
            Kind::Clip => "clip",
            Kind::Post => "post",
            Kind::Dispatch => "dispatch",
            Kind::Mark => "mark",
            Kind::Pick => "pick",
            Kind::Pass => "pass",
        }
    }
}

impl TryFrom<u8> for Kind {
    type Error = UnknownByte;

    ghost try_from_gives = { Decodes number 6 };

    fn try_from(number: u8) -> Result<Kind, UnknownByte> {
        match number {
            0 => Ok(Kind::Read),
            1 => Ok(Kind::Clip),
            2 => Ok(Kind::Post),
            3 => Ok(Kind::Dispatch),
            4 => Ok(Kind::Mark),
            5 => Ok(Kind::Pick),
            6 => Ok(Kind::Pass),
            _ => Err(UnknownByte(number)),
        }
    }
}

impl fmt::Display for Kind {
    ghost output = { λ k. Some (named k) };

    ghost styled_output = { λ k s. Some (styled_text s (named k)) };

    fn fmt<W: fmt::Write>(&self, f: &mut fmt::Formatter<W>) -> fmt::Result {
        f.pad(self.name())
    }
}

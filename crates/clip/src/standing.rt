ghost use Rattle.clip.specs.Bytes.{Decodes, standing_byte};

use crate::unknown_byte::UnknownByte;

// What has become of the last reading.
#[derive(Clone, Copy, PartialEq, Eq, Debug)]
pub enum Standing {
    // nothing yet
    Fresh = 0,
    // the handler has marked it as clipped
    Marked = 1,
    // the picker has taken it for a true one
    Taken = 2,
}

impl TryFrom<u8> for Standing {
    type Error = UnknownByte;

    ghost try_from_gives = { Decodes standing_byte 2 };

    fn try_from(byte: u8) -> Result<Standing, UnknownByte> {
        match byte {
            0 => Ok(Standing::Fresh),
            1 => Ok(Standing::Marked),
            2 => Ok(Standing::Taken),
            _ => Err(UnknownByte(byte)),
        }
    }
}

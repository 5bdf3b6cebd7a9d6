ghost use Rattle.clip.specs.Bytes.{Decodes, field_byte};

use crate::unknown_byte::UnknownByte;

// The field that the telescope looks at.
#[derive(Clone, Copy, PartialEq, Eq, Debug)]
pub enum Field {
    // none was picked yet
    Unset = 0,
    // a faint one, for a dark sky
    Faint = 1,
    // a bright one
    Bright = 2,
}

impl TryFrom<u8> for Field {
    type Error = UnknownByte;

    ghost try_from_gives = { Decodes field_byte 2 };

    fn try_from(byte: u8) -> Result<Field, UnknownByte> {
        match byte {
            0 => Ok(Field::Unset),
            1 => Ok(Field::Faint),
            2 => Ok(Field::Bright),
            _ => Err(UnknownByte(byte)),
        }
    }
}

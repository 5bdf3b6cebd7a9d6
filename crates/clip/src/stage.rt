ghost use Rattle.clip.specs.Bytes.{Decodes, stage_byte};

use crate::unknown_byte::UnknownByte;

// What runs at a moment of the night.
#[derive(Clone, Copy, PartialEq, Eq, Debug)]
pub enum Stage {
    // nothing: a pending task is dispatched, or the monitor takes its next reading
    Idle = 0,
    // the monitor, which has seen a clip and posts the handler
    Alarm = 1,
    // the monitor, which posts the picker
    Report = 2,
    // the clip handler
    Handler = 3,
    // the field picker
    Picker = 4,
}

impl TryFrom<u8> for Stage {
    type Error = UnknownByte;

    ghost try_from_gives = { Decodes stage_byte 4 };

    fn try_from(byte: u8) -> Result<Stage, UnknownByte> {
        match byte {
            0 => Ok(Stage::Idle),
            1 => Ok(Stage::Alarm),
            2 => Ok(Stage::Report),
            3 => Ok(Stage::Handler),
            4 => Ok(Stage::Picker),
            _ => Err(UnknownByte(byte)),
        }
    }
}

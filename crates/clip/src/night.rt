ghost use Rattle.std.specs.Prelude.{◌≡◌};
ghost use Rattle.clip.specs.Bytes.{Flags};
ghost use Rattle.clip.specs.Lines.{decoded, encoded};

use crate::field::Field;
use crate::stage::Stage;
use crate::standing::Standing;

// How many readings are taken in a night.
pub(crate) const READINGS: u8 = 5;
// The brightest sky, which is one above the top of the monitor's scale.
pub(crate) const BRIGHTEST: u8 = 4;
// How many bytes a line has.
pub const WIDTH: usize = 7;

// One moment of a night, which a line tells byte by byte in this order.
#[derive(Clone, Copy)]
pub struct Night {
    pub stage: Stage,
    // how many readings were taken
    pub readings: u8,
    // how bright the sky was at the last one
    pub sky: u8,
    pub standing: Standing,
    // whether the handler is pending
    pub handler: bool,
    // whether the picker is pending
    pub picker: bool,
    pub field: Field,
}

impl Night {
    // The moment that a line tells, if its length and all its bytes are in range. By name, with encode beside it, and
    // not by TryFrom: the calls of the machine decode, ask and encode, and none asks why a line tells no moment.
    pub fn decode(line: &[u8]) -> Option<Night>
        ensures { result ≡ decoded line.now }
    {
        let &[stage, readings, sky, standing, handler, picker, field] = line else {
            return None;
        };
        if readings > READINGS || sky > BRIGHTEST {
            return None;
        }
        Some(Night {
            stage: Stage::try_from(stage).ok()?,
            readings,
            sky,
            standing: Standing::try_from(standing).ok()?,
            handler: flag(handler)?,
            picker: flag(picker)?,
            field: Field::try_from(field).ok()?,
        })
    }

    // The line that tells the moment.
    pub(crate) fn encode(self) -> [u8; WIDTH]
        ensures { result ≡ encoded self }
    {
        [
            self.stage as u8,
            self.readings,
            self.sky,
            self.standing as u8,
            u8::from(self.handler),
            u8::from(self.picker),
            self.field as u8,
        ]
    }
}

// The flag that a byte tells; std has no TryFrom of a byte for a bool.
fn flag(byte: u8) -> Option<bool>
    ensures { Flags byte result }
{
    match byte {
        0 => Some(false),
        1 => Some(true),
        _ => None,
    }
}

// The three bytes of a frame.
ghost use Rattle.std.specs.Prelude.{◌≡◌, length};
ghost use Rattle.configuration.specs.Ops.{slot};
ghost use Rattle.configuration.specs.Reading.{frame_from};

use crate::frame::Frame;

// The three bytes of a frame, zeros where there is none.
pub(crate) fn slot(frame: Option<Frame>) -> [u8; 3]
    ensures { result ≡ slot frame }
{
    match frame {
        Some(frame) => [frame.place.saturating_add(1), frame.l, frame.level],
        None => [0; 3],
    }
}

// The frame that three bytes tell, if there is one.
pub(crate) fn frame_of(bytes: &[u8]) -> Frame
    requires { length bytes.now ≡ 3 }
    ensures { result ≡ frame_from bytes.now }
{
    Frame {
        place: bytes[0].saturating_sub(1),
        l: bytes[1],
        level: bytes[2],
    }
}

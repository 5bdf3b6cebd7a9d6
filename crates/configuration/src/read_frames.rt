// Frames as their bytes tell them.
ghost use Rattle.std.specs.Prelude.{◌≡◌, ◌*◌, reverse, length};
ghost use Rattle.configuration.specs.Reading.{unslots};
ghost use Rattle.configuration.specs.Meaning.{frames_on};

use crate::frame::Frame;
use crate::frames::Frames;
use crate::slot::frame_of;
use fixed::fixed_vec::FixedVec;

impl<const N: usize> Frames<N> {
    // Reads frames, the lowest first, up to the first zero place.
    pub(crate) fn read(bytes: &[u8]) -> Self
        requires { length bytes.now ≡ 3 * N }
        ensures { frames_on result ≡ reverse (unslots N bytes.now) }
    {
        let mut frames = FixedVec::new(Frame::default());
        for slot in bytes.chunks_exact(3) {
            if slot[0] == 0 {
                return Frames { frames };
            }
            frames.push(frame_of(slot)).unwrap();
        }
        Frames { frames }
    }
}

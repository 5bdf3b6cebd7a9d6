// Frames as bytes.
ghost use Rattle.std.specs.Prelude.{◌≡◌, ◌*◌, reverse, length};
ghost use Rattle.configuration.specs.Layout.{slots};
ghost use Rattle.configuration.specs.Meaning.{frames_on};

use crate::frames::Frames;
use crate::slot::slot;

impl<const N: usize> Frames<N> {
    // Writes the frames, the lowest first, and zeros in the unused places.
    pub(crate) fn write(&self, out: &mut [u8])
        requires { length out.old ≡ 3 * N }
        ensures { out.new ≡ slots N (reverse (frames_on self.now)) }
    {
        out.fill(0);
        // by index, since of what `chunks_exact_mut` lent a proof knows only the length
        let frames = self.frames.as_slice();
        for n in 0..frames.len() {
            let at = 3 * n;
            out[at..at + 3].copy_from_slice(&slot(Some(frames[n])));
        }
    }
}

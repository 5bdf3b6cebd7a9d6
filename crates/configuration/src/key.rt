// The number by which pending tasks are put in order.
ghost use Rattle.std.specs.Prelude.{◌≡◌, ◌<◌};
ghost use Rattle.configuration.specs.Layout.{key};
ghost use Rattle.configuration.specs.Meaning.{frames_of};
ghost use Rattle.configuration.specs.Ops.{number_of};

use crate::frame::Frame;
use crate::slot::slot;
use crate::task::Task;

// One more than the greatest number of three bytes.
const THREE_BYTES: u128 = 16777216;

// The three bytes of a frame as one number, the first byte highest; 0 where there is none.
fn number(frame: Option<Frame>) -> u32
    ensures told { result ≡ number_of frame }
    ensures small { result < 16777216 }
{
    let [place, l, level] = slot(frame);
    (u32::from(place) * 256 + u32::from(l)) * 256 + u32::from(level)
}

impl Task {
    // The nine bytes of the task as one number, the first byte highest: a number, since the order of numbers has all
    // laws.
    #[tactic(auto, using(crate::proofs::CheckKey::key_is))]
    pub fn key(&self) -> u128
        ensures { result ≡ key (frames_of self.now) }
    {
        let first = u128::from(number(self.frames.get(0)));
        let second = u128::from(number(self.frames.get(1)));
        let third = u128::from(number(self.frames.get(2)));
        (first * THREE_BYTES + second) * THREE_BYTES + third
    }
}

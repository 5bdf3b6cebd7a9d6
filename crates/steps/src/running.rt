ghost use Rattle.std.specs.Prelude.{◌≡◌, true, false, ◌∷◌, drop, MatchOption};
ghost use Rattle.configuration.specs.Meaning.{state_of};
ghost use Rattle.steps.specs.Labels.{runs};

use configuration::buffer::Buffer;
use configuration::frame::Frame;

// The frame that runs: the top one, unless a pending task has a higher level.
pub(crate) fn running(buffer: &Buffer) -> Option<Frame>
    ensures { MatchOption result (runs (state_of buffer.now) ≡ false) (λ f. (runs (state_of buffer.now) ≡ true) × ((state_of buffer.now).stack ≡ f ∷ drop 1 (state_of buffer.now).stack)) }
{
    buffer
        .stack()
        .top()
        .filter(|frame| frame.level >= buffer.top())
}

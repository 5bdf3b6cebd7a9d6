// Whether frames are lawful, each by itself and on the one under it.
ghost use Rattle.std.specs.Prelude.{◌≡◌, drop};
ghost use Rattle.std.specs.List.{list_all, zip};
ghost use Rattle.program.specs.Table.{statement_at};
ghost use Rattle.program.specs.Programs.{told};
ghost use Rattle.configuration.specs.Lawful.{is_call};
ghost use Rattle.configuration.specs.Tests.{ranged_frame, rests_on, called_by, lawful_task, lawful_stack};
ghost use Rattle.configuration.specs.Meaning.{frames_on, frames_of};

use crate::frame::Frame;
use crate::frames::Frames;
use crate::stack::Stack;
use crate::task::Task;
use program::program::Program;
use program::statement::Statement;

// The frame is in the value ranges.
fn ranged(program: &Program, frame: &Frame) -> bool
    ensures { result ≡ ranged_frame (told program.now) frame.now }
{
    frame.place < program.places() && frame.l < program.values() && frame.level < program.levels()
}

// A call stands at the place.
fn calls(program: &Program, place: u8) -> bool
    ensures { result ≡ is_call (statement_at (told program.now) place) }
{
    matches!(program.statement(place), Statement::Call { .. })
}

// In a stack, `below` may stand right under `above`.
fn rests(program: &Program, above: &Frame, below: &Frame) -> bool
    ensures { result ≡ rests_on (told program.now) above.now below.now }
{
    below.level < above.level || below.level == above.level && calls(program, below.place)
}

// In a task, `below` may stand right under `above`.
fn called(program: &Program, above: &Frame, below: &Frame) -> bool
    ensures { result ≡ called_by (told program.now) above.now below.now }
{
    below.level == above.level && calls(program, below.place)
}

impl<const N: usize> Frames<N> {
    // The frames are in the value ranges.
    fn ranged(&self, program: &Program) -> bool
        ensures { result ≡ list_all (ranged_frame (told program.now)) (frames_on self.now) }
    {
        self.frames
            .as_slice()
            .iter()
            .rev()
            .all(|frame| ranged(program, frame))
    }
}

// Each frame may stand in a stack right under the next one. (A function of its own beside the next, since of a chain
// whose closure calls a closure a proof does not find the result.)
fn all_rest(program: &Program, frames: &[Frame]) -> bool
    ensures { result ≡ list_all (λ p. rests_on (told program.now) p.1 p.0) (zip frames.now (drop 1 frames.now)) }
{
    frames
        .iter()
        .zip(frames.iter().skip(1))
        .all(|(below, above)| rests(program, above, below))
}

// Each frame may stand in a task right under the next one.
fn all_called(program: &Program, frames: &[Frame]) -> bool
    ensures { result ≡ list_all (λ p. called_by (told program.now) p.1 p.0) (zip frames.now (drop 1 frames.now)) }
{
    frames
        .iter()
        .zip(frames.iter().skip(1))
        .all(|(below, above)| called(program, above, below))
}

impl Stack {
    // The frames are in the value ranges, and each may stand on the one under it.
    #[tactic(auto, using(crate::proofs::CheckAll::first_passed, crate::proofs::CheckAll::first_failed), unfolding(crate::specs::Tests::lawful_stack))]
    pub(crate) fn lawful(&self, program: &Program) -> bool
        ensures { result ≡ lawful_stack (told program.now) (frames_on self.now) }
    {
        self.ranged(program) && all_rest(program, self.frames.as_slice())
    }
}

impl Task {
    // The same in a task, which has a frame at least.
    pub(crate) fn lawful(&self, program: &Program) -> bool
        ensures { result ≡ lawful_task (told program.now) (frames_of self.now) }
    {
        if self.frames.is_empty() {
            return false;
        }
        self.ranged(program) && all_called(program, self.frames.as_slice())
    }
}

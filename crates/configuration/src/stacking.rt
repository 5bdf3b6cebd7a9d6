// What is asked of frames on each other, and done to the top one.
ghost use Rattle.std.specs.Prelude.{◌≡◌, ◌≤◌, [], ◌∷◌, length, drop, if◌then◌else◌, nat_lt, is_ok};
ghost use Rattle.configuration.specs.Meaning.{frames_on};
ghost use Rattle.configuration.specs.Ops.{first, replaced};
ghost use Rattle.configuration.specs.Tasks.{task_level};

use crate::frame::Frame;
use crate::frames::Frames;
use fixed::fixed_vec::FixedVec;
use fixed::full::Full;

impl<const N: usize> Frames<N> {
    pub fn empty() -> Self
        ensures { frames_on result ≡ [] }
    {
        Frames {
            frames: FixedVec::new(Frame::default()),
        }
    }

    pub fn depth(&self) -> usize
        ensures { (result ≡ length (frames_on self.now)) × (result ≤ N) }
    {
        self.frames.len()
    }

    #[tactic(auto, using(crate::proofs::Backwards::first_last))]
    pub fn top(&self) -> Option<Frame>
        ensures { result ≡ first (frames_on self.now) }
    {
        self.frames.last()
    }

    // The frame right under the top one.
    pub fn below(&self) -> Option<Frame>
        ensures { result ≡ first (drop 1 (frames_on self.now)) }
    {
        self.frames.as_slice().iter().rev().nth(1).copied()
    }

    // The level of the top frame, 0 with none.
    pub fn level(&self) -> u8
        ensures { result ≡ task_level (frames_on self.now) }
    {
        self.top().map_or(0, |frame| frame.level)
    }

    // Puts a frame on top, unless there are N.
    pub fn push(&mut self, f: Frame) -> Result<(), Full>
        ensures told { is_ok result ≡ nat_lt (length (frames_on self.old)) N }
        ensures after { frames_on self.new ≡ (if is_ok result then f ∷ frames_on self.old else frames_on self.old) }
    {
        self.frames.push(f)
    }

    // Takes the top frame away.
    #[tactic(auto, using(crate::proofs::Backwards::first_last, crate::proofs::Backwards::popped))]
    pub fn pop(&mut self) -> Option<Frame>
        ensures told { result ≡ first (frames_on self.old) }
        ensures after { frames_on self.new ≡ drop 1 (frames_on self.old) }
    {
        self.frames.pop()
    }

    // Puts a frame in place of the top one.
    #[tactic(auto, using(crate::proofs::Backwards::replaced_last))]
    pub fn replace(&mut self, f: Frame)
        ensures { frames_on self.new ≡ replaced f (frames_on self.old) }
    {
        let depth = self.frames.len();
        if depth > 0 {
            self.frames.replace(depth - 1, f);
        }
    }
}

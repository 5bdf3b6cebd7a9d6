// Tasks that leave a stack, and tasks that are put on it.
ghost use Rattle.std.specs.Prelude.{◌≡◌, ◌+◌, ◌==◌, ◌<◌, ◌≤◌, ◌++◌, length, if◌then◌else◌, nat_le, is_ok, MatchResult};
ghost use Rattle.std.specs.List.{take_while};
ghost use Rattle.fixed.specs.Fixed.{listed};
ghost use Rattle.configuration.specs.Meaning.{frames_of, frames_on};
ghost use Rattle.configuration.specs.Ops.{told_task, uppermost, beneath};
ghost use Rattle.configuration.specs.Tasks.{run};

use crate::frame::Frame;
use crate::frames::Frames;
use crate::task::Task;
use fixed::fixed_vec::FixedVec;
use fixed::full::Full;

// A list of these frames, unless there are more than 3. (By cases, since a copy of as many frames as there are takes a
// call, and so more than a third longer.)
fn up_to_three(frames: &[Frame]) -> Result<FixedVec<Frame, 3>, Full>
    ensures { MatchResult result (λ v. listed v ≡ frames.now) (λ _. 3 < length frames.now) }
{
    let blank = Frame::default();
    match frames {
        [] => Ok(FixedVec::new(blank)),
        [a] => FixedVec::from_slice(blank, &[*a]),
        [a, b] => FixedVec::from_slice(blank, &[*a, *b]),
        [a, b, c] => FixedVec::from_slice(blank, &[*a, *b, *c]),
        _ => Err(Full),
    }
}

impl<const N: usize> Frames<N> {
    // How many of the uppermost frames have that level.
    fn run_at(&self, level: u8) -> usize
        ensures { result ≡ length (take_while (λ f. f.level == level) (frames_on self.now)) }
    {
        self.frames
            .as_slice()
            .iter()
            .rev()
            .take_while(|frame| frame.level == level)
            .count()
    }

    // How many of the uppermost frames have one level.
    pub fn run(&self) -> usize
        ensures { (result ≡ run (frames_on self.now)) × (result ≤ N) }
    {
        self.run_at(self.level())
    }

    // Takes the uppermost frames of one level away, as a task; not if there are none or more than 3.
    pub fn take_run(&mut self) -> Option<Task>
        ensures told { told_task result ≡ uppermost (frames_on self.old) }
        ensures after { frames_on self.new ≡ beneath (frames_on self.old) }
    {
        let count = self.run();
        if count == 0 {
            return None;
        }
        let base = self.frames.len() - count;
        let uppermost = &self.frames.as_slice()[base..];
        let Ok(frames) = up_to_three(uppermost) else {
            return None;
        };
        self.frames.truncate(base);
        Some(Frames { frames })
    }

    // Puts the frames of a task on top, if there is room for all. (By cases, as above.)
    pub fn raise(&mut self, u: Task) -> Result<(), Full>
        ensures told { is_ok result ≡ nat_le (length (frames_of u) + length (frames_on self.old)) N }
        ensures after { frames_on self.new ≡ (if is_ok result then frames_of u ++ frames_on self.old else frames_on self.old) }
    {
        let frames = u.frames.as_slice();
        if frames.len() > N - self.frames.len() {
            return Err(Full);
        }
        match frames {
            [a] => self.frames.push(*a),
            [a, b] => {
                self.frames.push(*a)?;
                self.frames.push(*b)
            }
            [a, b, c] => {
                self.frames.push(*a)?;
                self.frames.push(*b)?;
                self.frames.push(*c)
            }
            // none: no task has more than 3
            _ => Ok(()),
        }
    }
}

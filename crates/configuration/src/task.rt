// Pending tasks.
ghost use Rattle.std.specs.Prelude.{◌≡◌, [], ◌∷◌};
ghost use Rattle.configuration.specs.Meaning.{frames_of};

use crate::frame::Frame;
use crate::frames::Frames;

// A pending task: up to 3 frames.
pub type Task = Frames<3>;

impl Task {
    // The task of one frame. (Named, and no `From`, since a task is made of frames and is no other form of one.)
    pub fn of(frame: Frame) -> Task
        ensures { frames_of result ≡ frame ∷ [] }
    {
        let mut task = Task::empty();
        task.push(frame).unwrap();
        task
    }
}

// Tasks that become pending, and tasks that are taken.
ghost use Rattle.std.specs.Prelude.{◌≡◌, length, if◌then◌else◌, nat_lt, is_ok};
ghost use Rattle.std.specs.List.{slice_get};
ghost use Rattle.configuration.specs.Layout.{insert};
ghost use Rattle.configuration.specs.Meaning.{frames_of, tasks_of};
ghost use Rattle.configuration.specs.Ops.{told_task};
ghost use Rattle.configuration.specs.Tasks.{without};

use crate::buffer::Buffer;
use crate::task::Task;
use fixed::full::Full;

impl Buffer {
    // Makes a task pending, before the first one that is not smaller by its nine bytes, unless there are 6.
    pub fn add(&mut self, u: Task) -> Result<(), Full>
        ensures told { is_ok result ≡ nat_lt (length (tasks_of self.old)) 6 }
        ensures after { tasks_of self.new ≡ (if is_ok result then insert (frames_of u) (tasks_of self.old) else tasks_of self.old) }
        ensures kept { self.new.stack ≡ self.old.stack }
    {
        // first, so that no key is reckoned for a full buffer
        if self.tasks.len() >= 6 {
            return Err(Full);
        }
        let at = self.rank(u.key());
        self.tasks.insert(at, u)
    }

    // Takes the pending task of a number away.
    #[tactic(auto, using(crate::proofs::Pendings::tasks_cut))]
    pub fn remove(&mut self, number: u8) -> Option<Task>
        ensures told { told_task result ≡ slice_get (tasks_of self.old) number }
        ensures after { tasks_of self.new ≡ without number (tasks_of self.old) }
        ensures kept { self.new.stack ≡ self.old.stack }
    {
        self.tasks.remove(usize::from(number))
    }
}

// What is asked of a buffer.
ghost use Rattle.std.specs.Prelude.{◌≡◌, ◌≤◌, length, nat_lt};
ghost use Rattle.std.specs.List.{slice_get, take_while};
ghost use Rattle.fixed.specs.Fixed.{listed};
ghost use Rattle.configuration.specs.Config.{no_buffer};
ghost use Rattle.configuration.specs.Layout.{key};
ghost use Rattle.configuration.specs.Meaning.{frames_of, state_of, tasks_of};
ghost use Rattle.configuration.specs.Ops.{told_task};
ghost use Rattle.configuration.specs.Tasks.{top};

use crate::buffer::Buffer;
use crate::stack::Stack;
use crate::task::Task;
use fixed::fixed_vec::FixedVec;

impl Buffer {
    pub fn empty() -> Buffer
        ensures { state_of result ≡ no_buffer }
    {
        Buffer {
            stack: Stack::empty(),
            tasks: FixedVec::new(Task::empty()),
        }
    }

    pub fn stack(&self) -> Stack
        ensures { result ≡ self.now.stack }
    {
        self.stack
    }

    // The buffer with another stack.
    pub fn with_stack(&self, stack: Stack) -> Buffer
        ensures stack { result.stack ≡ stack }
        ensures tasks { tasks_of result ≡ tasks_of self.now }
    {
        Buffer { stack, ..*self }
    }

    // How many tasks are pending.
    pub fn pending(&self) -> u8
        ensures many { result ≡ length (tasks_of self.now) }
        ensures few { result ≤ 6 }
    {
        self.tasks.len() as u8
    }

    // The pending task of a number.
    pub fn task(&self, number: u8) -> Option<Task>
        ensures { told_task result ≡ slice_get (tasks_of self.now) number }
    {
        self.tasks.get(usize::from(number))
    }

    // The highest level of a pending task.
    pub fn top(&self) -> u8
        ensures { result ≡ top (tasks_of self.now) }
    {
        self.tasks
            .as_slice()
            .iter()
            .fold(0, |highest: u8, task| highest.max(task.level()))
    }

    // How many pending tasks stand before the first one whose key is not smaller.
    pub(crate) fn rank(&self, least: u128) -> usize
        ensures { result ≡ length (take_while (λ u. nat_lt (key (frames_of u)) least) (listed self.now.tasks)) }
    {
        self.tasks
            .as_slice()
            .iter()
            .take_while(|task| task.key() < least)
            .count()
    }
}

// Whether buffers and configurations are lawful.
ghost use Rattle.std.specs.Prelude.{◌≡◌, nat_lt};
ghost use Rattle.std.specs.List.{list_all};
ghost use Rattle.program.specs.Programs.{told};
ghost use Rattle.configuration.specs.Tests.{lawful_task, lawful_buffer, lawful_config};
ghost use Rattle.configuration.specs.Meaning.{frames_of, state_of, config_of};

use crate::ascending::ascending;
use crate::buffer::Buffer;
use crate::configuration::Configuration;
use crate::task::Task;
use program::program::Program;

// Each task is lawful. (A function of its own, since of a chain within a longer condition a proof does not find the
// result.)
fn lawful_tasks(program: &Program, tasks: &[Task]) -> bool
    ensures { result ≡ list_all (λ u. lawful_task (told program.now) (frames_of u)) tasks.now }
{
    tasks.iter().all(|task| task.lawful(program))
}

impl Buffer {
    // The stack and the tasks are lawful, and the tasks are in order.
    pub(crate) fn lawful(&self, program: &Program) -> bool
        ensures { result ≡ lawful_buffer (told program.now) (state_of self.now) }
    {
        if !self.stack.lawful(program) {
            return false;
        }
        let tasks = self.tasks.as_slice();
        lawful_tasks(program, tasks) && ascending(tasks)
    }
}

// Each buffer is lawful.
fn lawful_buffers(program: &Program, buffers: &[Buffer]) -> bool
    ensures { result ≡ list_all (λ b. lawful_buffer (told program.now) (state_of b)) buffers.now }
{
    buffers.iter().all(|buffer| buffer.lawful(program))
}

// All globals are values.
fn all_values(values: u8, globals: &[u8]) -> bool
    ensures { result ≡ list_all (λ v. nat_lt v values) globals.now }
{
    globals.iter().all(|global| *global < values)
}

impl Configuration {
    // The active buffer is one of the program's, the globals are values, and the buffers are lawful.
    pub(crate) fn lawful(&self, program: &Program) -> bool
        ensures { result ≡ lawful_config (told program.now) (config_of (told program.now) self.now) }
    {
        let buffers = program.buffers();
        if self.active >= buffers {
            return false;
        }
        let globals = &self.globals[0..usize::from(program.globals())];
        all_values(program.values(), globals)
            && lawful_buffers(program, &self.buffers[0..usize::from(buffers)])
    }
}

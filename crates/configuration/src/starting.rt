// The configuration in which a program begins.
ghost use Rattle.std.specs.Prelude.{◌≡◌, ◌<◌, ◌≤◌, length, take, slice_index};
ghost use Rattle.program.specs.Programs.{told};
ghost use Rattle.configuration.specs.Meaning.{config_of, state_of};
ghost use Rattle.configuration.specs.Start.{start_buffer, start_config};

use crate::buffer::Buffer;
use crate::configuration::Configuration;
use crate::frame::Frame;
use crate::stack::Stack;
use crate::task::Task;
use fixed::fixed_vec::FixedVec;
use program::program::Program;

impl Configuration {
    // The configuration in which the program begins: buffer 0 is active, the globals have their start values, and in
    // each buffer its main is pending.
    pub fn start(program: &Program) -> Configuration
        ensures { config_of (told program.now) result ≡ start_config (told program.now) }
    {
        let mains = program.mains();
        Configuration {
            active: 0,
            globals: start_values(program.start()),
            // three calls, shorter than a closure's clause
            buffers: [begun(mains, 0), begun(mains, 1), begun(mains, 2)],
        }
    }
}

// The start values, with zeros behind them.
fn start_values(values: &[u8]) -> [u8; 8]
    requires { length values.now ≤ 8 }
    ensures { take (length values.now) result ≡ values.now }
{
    let mut globals = [0; 8];
    globals[0..values.len()].copy_from_slice(values);
    globals
}

// The buffer of a number, in which its main is pending; past the last one an empty buffer.
fn begun(mains: &[u8], number: usize) -> Buffer
    ensures { number < length mains.now → state_of result ≡ start_buffer (slice_index mains.now number) }
{
    // built here, since `add` looks for the task's place among tasks that are not there
    let mut tasks = FixedVec::new(Task::empty());
    if let Some(place) = mains.get(number).copied() {
        let main = Frame {
            place,
            l: 0,
            level: 0,
        };
        tasks.push(Task::of(main)).unwrap();
    }
    Buffer {
        stack: Stack::empty(),
        tasks,
    }
}

// Buffers as their bytes tell them.
ghost use Rattle.std.specs.Prelude.{◌≡◌, ◌*◌, ◌≤◌, map, length};
ghost use Rattle.configuration.specs.Reading.{buffer_from, untasks, unbuffers};
ghost use Rattle.configuration.specs.Meaning.{state_of, frames_of};
ghost use Rattle.fixed.specs.Fixed.{listed};

use crate::buffer::Buffer;
use crate::stack::Stack;
use crate::task::Task;
use fixed::fixed_vec::FixedVec;

// Reads tasks up to the first zero place, as `Frames::read` reads frames, but of nine bytes each.
fn read_tasks(bytes: &[u8]) -> FixedVec<Task, 6>
    requires { length bytes.now ≡ 54 }
    ensures { map frames_of (listed result) ≡ untasks 6 bytes.now }
{
    let mut tasks = FixedVec::new(Task::empty());
    for nine in bytes.chunks_exact(9) {
        if nine[0] == 0 {
            return tasks;
        }
        tasks.push(Task::read(nine)).unwrap();
    }
    tasks
}

impl Buffer {
    // The buffer that the first 78 bytes tell. (A slice, since a part of a line is no array, and longer, since the
    // bytes of further buffers may follow.)
    pub(crate) fn read(bytes: &[u8]) -> Buffer
        requires { 78 ≤ length bytes.now }
        ensures { state_of result ≡ buffer_from bytes.now }
    {
        Buffer {
            stack: Stack::read(&bytes[..24]),
            tasks: read_tasks(&bytes[24..78]),
        }
    }
}

// Reads as many buffers as there is room for.
pub(crate) fn read_buffers(bytes: &[u8], out: &mut [Buffer])
    requires few { length out.old ≤ 3 }
    requires long { 78 * length out.old ≤ length bytes.now }
    ensures { map state_of out.new ≡ unbuffers (length out.old) bytes.now }
{
    // by index, since once parts that are lent as mutable come back, a proof knows only the slice's length
    for n in 0..out.len() {
        out[n] = Buffer::read(&bytes[78 * n..]);
    }
}

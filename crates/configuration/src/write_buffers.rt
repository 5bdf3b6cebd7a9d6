// Buffers as bytes, part by part by index, since of what `chunks_exact_mut` lent a proof knows only the length.
ghost use Rattle.std.specs.Prelude.{◌≡◌, ◌*◌, ◌≤◌, map, length};
ghost use Rattle.configuration.specs.Layout.{task_slots, buffer_bytes, all_bytes};
ghost use Rattle.configuration.specs.Meaning.{state_of, tasks_of};

use crate::buffer::Buffer;

impl Buffer {
    // Writes the buffer into 78 bytes. (A slice, since a part of a line is no array.)
    #[tactic(auto, using(crate::proofs::WriteBuffers::buffer_put))]
    pub(crate) fn write(&self, out: &mut [u8])
        requires { length out.old ≡ 78 }
        ensures { out.new ≡ buffer_bytes (state_of self.now) }
    {
        self.stack.write(&mut out[0..24]);
        self.write_tasks(&mut out[24..78]);
    }

    // Writes the tasks, and zeros in the unused places.
    fn write_tasks(&self, out: &mut [u8])
        requires { length out.old ≡ 54 }
        ensures { out.new ≡ task_slots 6 (tasks_of self.now) }
    {
        out.fill(0);
        // by index, as `Frames::write`
        let tasks = self.tasks.as_slice();
        for n in 0..tasks.len() {
            tasks[n].write(&mut out[9 * n..9 * n + 9]);
        }
    }
}

// Writes buffers one after another.
pub(crate) fn write_buffers(buffers: &[Buffer], out: &mut [u8])
    requires few { length buffers.now ≤ 3 }
    requires long { length out.old ≡ 78 * length buffers.now }
    ensures { out.new ≡ all_bytes (map state_of buffers.now) }
{
    for n in 0..buffers.len() {
        buffers[n].write(&mut out[78 * n..78 * n + 78]);
    }
}

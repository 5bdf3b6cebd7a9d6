// What is asked of a configuration, and a configuration with some parts changed.
ghost use Rattle.std.specs.Prelude.{◌≡◌, map, take, slice_index_or, slice_set};
ghost use Rattle.program.specs.Table.{Table};
ghost use Rattle.configuration.specs.Config.{buffer_at, no_buffer};
ghost use Rattle.configuration.specs.Meaning.{config_of, state_of};
ghost use Rattle.configuration.specs.Ops.{changed};

use crate::buffer::Buffer;
use crate::configuration::Configuration;

impl Configuration {
    pub fn active(&self) -> u8
        ensures { result ≡ self.now.active }
    {
        self.active
    }

    // The first globals, as many as a program has.
    pub fn globals(&self, count: u8) -> &[u8]
        ensures { result.now ≡ take count self.now.globals }
    {
        &self.globals[..usize::from(count.min(8))]
    }

    // All of them, used or not.
    pub fn global_values(&self) -> [u8; 8]
        ensures { result ≡ self.now.globals }
    {
        self.globals
    }

    // The buffer of a number, in a program with so many buffers; past the last one an empty buffer.
    pub fn buffer_at(&self, buffers: u8, k: u8) -> Buffer
        ensures { (t : Table) → t.buffers ≡ buffers → state_of result ≡ buffer_at (config_of t self.now) k }
    {
        if k < buffers {
            buffer_in(&self.buffers, usize::from(k))
        } else {
            Buffer::empty()
        }
    }

    // The configuration with another active buffer, other globals, and another buffer in place of the active one.
    pub fn changed(&self, active: u8, globals: [u8; 8], buffer: Buffer) -> Configuration
        ensures { (t : Table) → config_of t result ≡ changed (config_of t self.now) active (take t.globals globals) (state_of buffer) }
    {
        let mut next = *self;
        next.put(buffer);
        next.active = active;
        next.globals = globals;
        next
    }

    // Puts another buffer in place of the active one.
    fn put(&mut self, buffer: Buffer)
        ensures { self.new.buffers ≡ slice_set self.old.buffers self.old.active buffer }
    {
        replace(&mut self.buffers, usize::from(self.active), buffer);
    }
}

// The buffer at a place, or an empty one past the end.
fn buffer_in(buffers: &[Buffer], k: usize) -> Buffer
    ensures { state_of result ≡ slice_index_or (map state_of buffers.now) k no_buffer }
{
    buffers.get(k).map_or_else(Buffer::empty, |buffer| *buffer)
}

// Puts a buffer at a place, unless that is past the end.
fn replace(buffers: &mut [Buffer], k: usize, buffer: Buffer)
    ensures { buffers.new ≡ slice_set buffers.old k buffer }
{
    // by index, since once a part that is lent as mutable comes back, a proof knows only the slice's length
    if k < buffers.len() {
        buffers[k] = buffer;
    }
}

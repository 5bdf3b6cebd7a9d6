// Configurations as lines.
ghost use Rattle.std.specs.Prelude.{◌≡◌, length};
ghost use Rattle.program.specs.Programs.{told};
ghost use Rattle.configuration.specs.Layout.{width, written};
ghost use Rattle.configuration.specs.Meaning.{config_of};

use crate::configuration::Configuration;
use crate::write_buffers::write_buffers;
use program::program::Program;

impl Configuration {
    // Writes the line of the configuration, its tasks in the order in which they stand.
    #[tactic(auto, unfolding(crate::specs::Layout::width))]
    pub(crate) fn encode(&self, program: &Program, out: &mut [u8])
        requires { length out.old ≡ width (told program.now) }
        ensures { out.new ≡ written (config_of (told program.now) self.now) }
    {
        let globals = usize::from(program.globals());
        let buffers = usize::from(program.buffers());
        out[0] = self.active;
        out[1..1 + globals].copy_from_slice(&self.globals[0..globals]);
        write_buffers(&self.buffers[0..buffers], &mut out[1 + globals..]);
    }
}

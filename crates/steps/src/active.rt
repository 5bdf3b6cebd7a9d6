ghost use Rattle.std.specs.Prelude.{◌≡◌};
ghost use Rattle.program.specs.Programs.{told};
ghost use Rattle.configuration.specs.Config.{active_buffer};
ghost use Rattle.configuration.specs.Meaning.{state_of, config_of};

use configuration::buffer::Buffer;
use configuration::configuration::Configuration;
use program::program::Program;

// The buffer that is active. A configuration has room for the most buffers, and the program tells how many count.
pub(crate) fn active_buffer(program: &Program, configuration: &Configuration) -> Buffer
    ensures { state_of result ≡ active_buffer (config_of (told program.now) configuration.now) }
{
    configuration.buffer_at(program.buffers(), configuration.active())
}

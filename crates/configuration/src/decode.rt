// Configurations as their lines tell them.
ghost use Rattle.std.specs.Prelude.{◌≡◌, length};
ghost use Rattle.program.specs.Programs.{told};
ghost use Rattle.configuration.specs.Layout.{width};
ghost use Rattle.configuration.specs.Reading.{decoded};
ghost use Rattle.configuration.specs.Meaning.{config_of};

use crate::buffer::Buffer;
use crate::configuration::Configuration;
use crate::read_buffers::read_buffers;
use program::program::Program;

impl Configuration {
    // The configuration that a line of the program's width tells, lawful or not. (The width is tested once, in `read`
    // and in `write`.)
    pub(crate) fn decode(program: &Program, line: &[u8]) -> Configuration
        requires { length line.now ≡ width (told program.now) }
        ensures { config_of (told program.now) result ≡ decoded (told program.now) line.now }
    {
        let mut configuration = Configuration {
            active: 0,
            globals: [0; 8],
            buffers: [Buffer::empty(); 3],
        };
        configuration.fill(program, line);
        configuration
    }

    // Takes over all that the line tells.
    #[tactic(auto, unfolding(crate::specs::Layout::width))]
    fn fill(&mut self, program: &Program, line: &[u8])
        requires { length line.now ≡ width (told program.now) }
        ensures { config_of (told program.now) self.new ≡ decoded (told program.now) line.now }
    {
        let globals = usize::from(program.globals());
        let buffers = usize::from(program.buffers());
        self.active = line[0];
        self.globals[0..globals].copy_from_slice(&line[1..1 + globals]);
        read_buffers(&line[1 + globals..], &mut self.buffers[0..buffers]);
    }
}

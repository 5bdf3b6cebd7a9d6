// Configurations and their lines.
ghost use Rattle.std.specs.Prelude.{◌≡◌, ◌≤◌, length, if◌then◌else◌, Some, None, MatchOption, is_ok, ◌==◌};
ghost use Rattle.std.specs.Str.{bytes_eq};
ghost use Rattle.program.specs.Programs.{told};
ghost use Rattle.configuration.specs.Layout.{width, written};
ghost use Rattle.configuration.specs.Tests.{told_by};
ghost use Rattle.configuration.specs.Meaning.{config_of};

use crate::configuration::Configuration;
use crate::wrong_length::WrongLength;
use program::program::Program;

// How many bytes the program's lines have: one for the active buffer, one for each global, 78 for each buffer.
#[tactic(auto, unfolding(crate::specs::Layout::width))]
pub fn line_width(program: &Program) -> usize
    ensures told { result ≡ width (told program.now) }
    ensures most { result ≤ 243 }
{
    1 + usize::from(program.globals()) + 78 * usize::from(program.buffers())
}

impl Configuration {
    // The configuration that a line tells, if the line is lawful.
    #[tactic(auto, using(crate::proofs::CheckLine::told_narrow, crate::proofs::CheckLine::told_lawless, crate::proofs::CheckLine::told_other, crate::proofs::CheckLine::told_lawful))]
    pub fn read(program: &Program, line: &[u8]) -> Option<Configuration>
        ensures { MatchOption result (told_by (told program.now) line.now ≡ None) (λ c. told_by (told program.now) line.now ≡ Some (config_of (told program.now) c)) }
    {
        if line.len() != line_width(program) {
            return None;
        }
        let configuration = Configuration::decode(program, line);
        if !configuration.lawful(program) {
            return None;
        }
        if !configuration.writes(program, line) {
            return None;
        }
        Some(configuration)
    }

    // The line is what is written of the configuration: what stands behind an unused place is not read, and has to be
    // zero. (No call allocates, and no line is longer than 243.)
    fn writes(&self, program: &Program, line: &[u8]) -> bool
        requires { length line.now ≡ width (told program.now) }
        ensures { result ≡ bytes_eq (written (config_of (told program.now) self.now)) line.now }
    {
        let mut work = [0; 243];
        let wide = line_width(program);
        self.encode(program, &mut work[0..wide]);
        &work[0..wide] == line
    }

    // Writes the line into exactly as many bytes as it has; where there are more or fewer, it writes nothing.
    pub fn write(&self, program: &Program, out: &mut [u8]) -> Result<(), WrongLength>
        ensures fits { is_ok result ≡ (length out.old == width (told program.now)) }
        ensures done { out.new ≡ (if is_ok result then written (config_of (told program.now) self.now) else out.old) }
    {
        if out.len() != line_width(program) {
            return Err(WrongLength);
        }
        self.encode(program, out);
        Ok(())
    }
}

ghost use Rattle.std.specs.Prelude.{◌≡◌};
ghost use Rattle.program.specs.Programs.{told};
ghost use Rattle.steps.specs.Laws.{ProgramLaw};

use crate::program_machine::ProgramMachine;
use program::program::Program;

impl ProgramMachine {
    // The machine of a program. At every lawful line its list of steps is exactly the rules' transitions that fit the
    // space, and configurations and lawful lines correspond.
    pub fn new(program: Program) -> ProgramMachine
        ensures is { result.program ≡ program }
        ensures law { ProgramLaw (told program) }
    {
        ProgramMachine { program }
    }

    pub fn program(&self) -> &Program
        ensures { result.now ≡ self.now.program }
    {
        &self.program
    }
}

use program::program::Program;

// A program as a machine: its lines tell configurations, and its steps are the transitions of the rules.
#[derive(Drop)]
pub struct ProgramMachine {
    pub(crate) program: Program,
}

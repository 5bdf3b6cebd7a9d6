ghost use Rattle.explorer_tests.specs.Wides.{wide, wide_lawful};

use machine::machine::Machine;
use machine::refusal::Refusal;

// A machine that is too wide: it tells width 257, and refuses its other calls.
#[derive(Clone, Copy)]
pub(crate) struct TooWide;

impl Machine for TooWide {
    ghost meaning = { λ _. wide };

    ghost lawful = { λ _. wide_lawful };

    fn width(&self) -> u16 {
        257
    }

    fn start(&self, out: &mut [u8]) -> Result<(), Refusal> {
        Err(Refusal::Length)
    }

    fn count(&self, line: &[u8]) -> Result<u8, Refusal> {
        Err(Refusal::Length)
    }

    fn step(&self, line: &[u8], number: u8, out: &mut [u8]) -> Result<(u8, u8), Refusal> {
        Err(Refusal::Length)
    }

    fn goal(&self, line: &[u8]) -> Result<bool, Refusal> {
        Err(Refusal::Length)
    }

    fn tight(&self, line: &[u8]) -> Result<bool, Refusal> {
        Err(Refusal::Length)
    }
}

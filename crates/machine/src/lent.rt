use crate::machine::Machine;
use crate::refusal::Refusal;

// A machine that is lent is a machine, and means the same.
impl<'a, M: Machine> Machine for &'a M {
    ghost meaning = { λ m. M.Machine.meaning m.now };

    ghost lawful = { λ m. M.Machine.lawful m.now };

    fn width(&self) -> u16 {
        (*self).width()
    }

    fn start(&self, out: &mut [u8]) -> Result<(), Refusal> {
        (*self).start(out)
    }

    fn count(&self, line: &[u8]) -> Result<u8, Refusal> {
        (*self).count(line)
    }

    fn step(&self, line: &[u8], number: u8, out: &mut [u8]) -> Result<(u8, u8), Refusal> {
        (*self).step(line, number, out)
    }

    fn goal(&self, line: &[u8]) -> Result<bool, Refusal> {
        (*self).goal(line)
    }

    fn tight(&self, line: &[u8]) -> Result<bool, Refusal> {
        (*self).tight(line)
    }
}

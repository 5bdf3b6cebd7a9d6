ghost use Rattle.std.specs.Prelude.{◌≡◌, ℕ, ◌<◌, ◌≤◌, ⊤, true, false, length, slice_index, MatchOption};
ghost use Rattle.machine.specs.System.{count};
ghost use Rattle.machine.specs.Calls.{serves as fitting, step_told, step_area};

use crate::machine::Machine;
use crate::refusal::Refusal;
use crate::serves::serves;
use std::alloc::AllocError;

// A line at a machine that is narrow enough and has lines of that length: none of these calls is refused
// for the machine's or the line's sake.
pub struct At<'a, M: Machine> {
    machine: &'a M,
    line: &'a [u8],
    ghost narrow: { (M.Machine.meaning machine.now).width ≤ 256 },
    ghost long: { length line.now ≡ (M.Machine.meaning machine.now).width },
    ghost bytes: { (i : ℕ) → slice_index line.now i < 256 },
}

// Two references, copied by hand: a derive would ask that M is copied too, and `derive_where` takes no struct with a
// ghost field.
impl<'a, M: Machine> Clone for At<'a, M> {
    ghost is_clone = { λ at copy. copy ≡ at };

    ghost is_infallible = { λ _. ⊤ };

    fn clone(&self) -> Result<At<'a, M>, AllocError> {
        Ok(*self)
    }
}

impl<'a, M: Machine> Copy for At<'a, M> {}

impl<'a, M: Machine> At<'a, M> {
    // The line at the machine, where it serves.
    pub fn new(machine: &'a M, line: &'a [u8]) -> Option<At<'a, M>>
        ensures { MatchOption result (fitting (M.Machine.meaning machine.now) (length line.now) ≡ false) (λ at. (fitting (M.Machine.meaning machine.now) (length line.now) ≡ true) × (at.machine.now ≡ machine.now) × (at.line.now ≡ line.now)) }
    {
        if serves(machine.width(), line.len()) {
            Some(At { machine, line })
        } else {
            None
        }
    }

    pub fn machine(&self) -> &'a M
        ensures { result.now ≡ self.now.machine.now }
    {
        self.machine
    }

    pub fn line(&self) -> &'a [u8]
        ensures { result.now ≡ self.now.line.now }
    {
        self.line
    }

    // how many steps there are
    pub fn count(&self) -> u8
        ensures { result ≡ count (M.Machine.meaning self.now.machine.now) self.now.line.now }
    {
        self.machine.count(self.line).unwrap()
    }

    // refused for another area, and behind the last step
    pub fn step(&self, number: u8, out: &mut [u8]) -> Result<(u8, u8), Refusal>
        ensures told { result ≡ step_told (M.Machine.meaning self.now.machine.now) self.now.line.now number (length out.old) }
        ensures written { out.new ≡ step_area (M.Machine.meaning self.now.machine.now) self.now.line.now number out.old }
    {
        self.machine.step(self.line, number, out)
    }

    pub fn goal(&self) -> bool
        ensures { result ≡ (M.Machine.meaning self.now.machine.now).goal self.now.line.now }
    {
        self.machine.goal(self.line).unwrap()
    }

    pub fn tight(&self) -> bool
        ensures { result ≡ (M.Machine.meaning self.now.machine.now).tight self.now.line.now }
    {
        self.machine.tight(self.line).unwrap()
    }
}

ghost use Rattle.std.specs.Prelude.{◌≡◌, ◌<◌, ◌≤◌, min};
ghost use Rattle.explorer_tests.specs.Counters.{climbs, counter};
ghost use Rattle.explorer_tests.specs.CountersLaw.{counter_lawful};

use machine::machine::Machine;
use machine::refusal::Refusal;

// A counter of one byte, which starts at 0. Step k adds k + 1, where the sum stays at most the limit.
#[derive(Clone, Copy)]
pub(crate) struct Counter {
    limit: u8,
    goal: u8,
    // how many steps there are where none is left off
    steps: u8,
    // whether the limit is a size limit, so that a value at which a step was left off is tight
    strict: bool,
    ghost byte: { limit < 256 },
    ghost few: { steps ≤ 64 },
}

impl Counter {
    // A counter with that many steps, 64 at most.
    pub(crate) fn new(limit: u8, goal: u8, steps: u8, strict: bool) -> Counter
        ensures { (result.limit ≡ limit) × (result.goal ≡ goal) × (result.steps ≡ min steps 64) × (result.strict ≡ strict) }
    {
        Counter {
            limit,
            goal,
            steps: steps.min(64),
            strict,
        }
    }

    // How many steps there are at a value.
    fn count_at(&self, value: u8) -> u8
        ensures { result ≡ climbs self.now.limit self.now.steps value }
    {
        self.steps.min(self.limit.saturating_sub(value))
    }
}

impl Machine for Counter {
    ghost meaning = { λ m. counter m.limit m.goal m.steps m.strict };

    ghost lawful = { λ m. counter_lawful m.limit m.goal m.steps m.strict m.byte m.few };

    fn width(&self) -> u16 {
        1
    }

    fn start(&self, out: &mut [u8]) -> Result<(), Refusal> {
        if out.len() != 1 {
            return Err(Refusal::Length);
        }
        out.copy_from_slice(&[0]);
        Ok(())
    }

    #[tactic(auto, using(crate::specs::CountersLaw::counted))]
    fn count(&self, line: &[u8]) -> Result<u8, Refusal> {
        let &[value] = line else {
            return Err(Refusal::Length);
        };
        Ok(self.count_at(value))
    }

    #[tactic(auto, using(crate::specs::CountersLaw::counted, crate::specs::CountersLaw::stepped))]
    fn step(&self, line: &[u8], number: u8, out: &mut [u8]) -> Result<(u8, u8), Refusal> {
        if line.len() != 1 || out.len() != 1 {
            return Err(Refusal::Length);
        }
        let value = line[0];
        if number >= self.count_at(value) {
            return Err(Refusal::NoStep);
        }
        out.copy_from_slice(&[value + number + 1]);
        Ok((0, number))
    }

    fn goal(&self, line: &[u8]) -> Result<bool, Refusal> {
        let &[value] = line else {
            return Err(Refusal::Length);
        };
        Ok(value == self.goal)
    }

    fn tight(&self, line: &[u8]) -> Result<bool, Refusal> {
        let &[value] = line else {
            return Err(Refusal::Length);
        };
        Ok(self.strict && self.limit.saturating_sub(value) < self.steps)
    }
}

ghost use Rattle.std.specs.Prelude.{◌≡◌, ◌<◌, nat_le};
ghost use Rattle.rule.specs.declared.charge.Charge.TheVariants.{Kinds, Delay};
ghost use Rattle.rule.specs.Bounds.{charged, largest, spend};
ghost use Rattle.rule.specs.BoundLaw.{bound_sound};

use crate::charge::{Charge, KindSet};
use crate::rule::Rule;

// A bound: the rule of a layer whose byte is what is left of a budget.
#[derive(Clone, Copy)]
pub struct Bound {
    charge: Charge,
    budget: u8,
    ghost fits: { budget < 256 },
}

impl Bound {
    // each step of these kinds costs 1
    pub fn kinds(set: KindSet, budget: u8) -> Bound
        ensures charge { result.charge ≡ Kinds set }
        ensures budget { result.budget ≡ budget }
    {
        Bound {
            charge: Charge::Kinds(set),
            budget,
        }
    }

    // each step costs its delay
    pub fn delay(budget: u8) -> Bound
        ensures charge { result.charge ≡ Delay }
        ensures budget { result.budget ≡ budget }
    {
        Bound {
            charge: Charge::Delay,
            budget,
        }
    }

    // what a step costs
    pub fn charge(&self, kind: u8, delay: u8) -> u8
        ensures { result ≡ charged self.now.charge kind delay }
    {
        self.charge.of(kind, delay)
    }
}

impl Rule for Bound {
    ghost moves = { λ b. spend b.charge };

    ghost opening = { λ b. b.budget };

    ghost covers = { λ b left. nat_le (largest b.charge) left };

    ghost sound = { λ b. bound_sound b.charge b.budget b.fits };

    fn first(&self) -> u8 {
        self.budget
    }

    fn next(&self, byte: u8, kind: u8, delay: u8) -> Option<u8> {
        byte.checked_sub(self.charge(kind, delay))
    }

    fn keeps_all(&self, byte: u8) -> bool {
        self.charge.largest() <= byte
    }
}

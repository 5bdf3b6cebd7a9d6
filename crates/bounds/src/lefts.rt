ghost use Rattle.std.specs.Prelude.{◌≡◌, length};
ghost use Rattle.bounds.specs.Stacks.{affords, covers, spends, budgets};
ghost use Rattle.bounds.specs.StackLaws.{covers_all};

use crate::front::Front;
use rule::bound::Bound;
use rule::rule::Rule;

// Several bounds and what is left of each: one byte to a bound and in the same order.
#[derive(Drop)]
pub struct Lefts<'a> {
    pub bounds: &'a [Bound],
    pub bytes: &'a [u8],
    ghost long: { length bytes.now ≡ length bounds.now },
}

impl<'a> Front for Lefts<'a> {
    ghost passes = { λ s. affords s.bounds.now s.bytes.now };

    ghost opens = { λ s. covers s.bounds.now s.bytes.now };

    ghost wide = { λ s. length s.bounds.now };

    ghost after = { λ s. spends s.bounds.now s.bytes.now };

    ghost sound = { λ s. covers_all s.bounds.now s.bytes.now };

    // all of them can pay
    fn keeps(&self, kind: u8, delay: u8) -> bool {
        self.bounds
            .iter()
            .zip(self.bytes)
            .all(|(bound, left)| bound.charge(kind, delay) <= *left)
    }

    fn keeps_all(&self) -> bool {
        self.bounds
            .iter()
            .zip(self.bytes)
            .all(|(bound, left)| bound.keeps_all(*left))
    }

    // By places, since a proof knows nothing of what an adapter of iter_mut writes.
    fn put(&self, kind: u8, delay: u8, out: &mut [u8]) {
        for (place, bound) in self.bounds.iter().enumerate() {
            out[place] = self.bytes[place].saturating_sub(bound.charge(kind, delay));
        }
    }
}

// Writes the budget of each bound; by places, as `put`.
pub fn put_budgets(bounds: &[Bound], out: &mut [u8])
    requires { length out.old ≡ length bounds.now }
    ensures { out.new ≡ budgets bounds.now }
{
    for (place, bound) in bounds.iter().enumerate() {
        out[place] = bound.first();
    }
}

ghost use Rattle.std.specs.Prelude.{◌≡◌};
ghost use Rattle.rule.specs.Bounds.{RunLaw};

use crate::over::Over;
use machine::machine::Machine;
use rule::bound::Bound;

// A machine under a bound. Its runs are the runs below whose charges the budget covers.
pub fn bounded<M: Machine>(below: M, bound: Bound) -> Over<M, Bound>
    ensures machine { result.below ≡ below }
    ensures rule { result.rule ≡ bound }
    ensures runs { RunLaw result.rule.charge result.rule.budget (M.Machine.meaning result.below) }
{
    Over::new(below, bound)
}

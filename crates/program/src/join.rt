// What operators make of two values.
ghost use Rattle.std.specs.Prelude.{◌≡◌, ◌<◌};
ghost use Rattle.program.specs.Values.{joined};

use crate::operator::Operator;

// Sums and differences are taken modulo the number of values.
pub(crate) fn join(values: u8, operator: Operator, a: u8, b: u8) -> u8
    requires { 0 < values }
    ensures { result ≡ joined values operator a b }
{
    let (all, left, right) = (u16::from(values), u16::from(a), u16::from(b));
    match operator {
        Operator::Plus => ((left + right) % all) as u8,
        Operator::Minus => ((left + all).saturating_sub(right) % all) as u8,
        Operator::Equal => u8::from(a == b),
        Operator::Less => u8::from(a < b),
        Operator::And => u8::from(a > 0 && b > 0),
        Operator::Or => u8::from(a > 0 || b > 0),
    }
}

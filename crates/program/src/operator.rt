// What joins two terms. Sums and differences are taken modulo the number of values; the others give 0 or 1.
#[derive(Clone, Copy, PartialEq, Eq, Debug)]
pub enum Operator {
    Plus,
    Minus,
    Equal,
    Less,
    And,
    Or,
}

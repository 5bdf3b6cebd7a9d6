// An expression: `*`, which has every value, or the node that it is made of, which has one. The node goes by its number,
// as all nodes do.
#[derive(Clone, Copy, PartialEq, Eq, Debug)]
pub enum Expression {
    Any,
    Of(u16),
}

use crate::expression::Expression;
use crate::variable::Variable;

// What stands at a place. `next` is the place that follows; places and procedures go by their numbers, which the bytes of
// a frame hold too.
#[derive(Clone, Copy, PartialEq, Eq, Debug)]
pub enum Statement {
    Skip {
        next: u8,
    },
    Assume {
        test: Expression,
        next: u8,
    },
    // into the first block where the test is true, into the second where it is false
    If {
        test: Expression,
        first: u8,
        second: u8,
    },
    Assign {
        variable: Variable,
        value: Expression,
        next: u8,
    },
    // into the body where the test is true, past it where it is false
    While {
        test: Expression,
        body: u8,
        next: u8,
    },
    // the variable takes what the procedure returns
    Call {
        variable: Variable,
        procedure: u8,
        argument: Expression,
        next: u8,
    },
    Return {
        value: Expression,
    },
    Post {
        level: u8,
        procedure: u8,
        argument: Expression,
        next: u8,
    },
    Yield {
        next: u8,
    },
    Zield {
        next: u8,
    },
}

// What expressions are worth, by the values of the globals and of the frame's own variable l: the two things that a
// variable can name, each taken from where it lies.
ghost use Rattle.std.specs.Prelude.{◌≡◌};
ghost use Rattle.program.specs.Values.{held, worth, value, may_be_true, may_be_false};
ghost use Rattle.program.specs.Worths.{Valued};
ghost use Rattle.program.specs.Programs.{told};

use crate::expression::Expression;
use crate::join::join;
use crate::node::Node;
use crate::program::Program;
use crate::shallow::DEEPEST;
use crate::variable::Variable;

// The value of a variable; of a global that is not there, 0.
pub fn held(variable: Variable, globals: &[u8], l: u8) -> u8
    ensures { result ≡ held globals.now l variable }
{
    match variable {
        Variable::Global(g) => globals.get(usize::from(g)).copied().unwrap_or(0),
        Variable::Local => l,
    }
}

impl Program {
    // What a node is worth; by the rules for each form of node it is worth that and nothing else.
    pub fn value(&self, node: u16, globals: &[u8], l: u8) -> u8
        ensures told { result ≡ value (told self.now) globals.now l node }
        ensures law { Valued (told self.now) globals.now l node }
    {
        self.worth(DEEPEST, node, globals, l)
    }

    // What a node is worth, seen so many nodes deep.
    fn worth(&self, depth: u8, node: u16, globals: &[u8], l: u8) -> u8
        ensures { result ≡ worth depth (told self.now) globals.now l node }
    {
        if depth == 0 {
            return 0;
        }
        let below = depth - 1;
        match self.tables.node(node) {
            Node::Number(v) => v,
            Node::Read(variable) => held(variable, globals, l),
            Node::Not(part) => u8::from(self.worth(below, part, globals, l) == 0),
            Node::Join(operator, left, right) => {
                let a = self.worth(below, left, globals, l);
                let b = self.worth(below, right, globals, l);
                join(self.tables.values, operator, a, b)
            }
        }
    }

    // Whether an expression may be true: `*` may, and so may what is not 0. This and `may_be_false` are two calls, as a
    // test is asked for one way or for both.
    pub fn may_be_true(&self, test: Expression, globals: &[u8], l: u8) -> bool
        ensures { result ≡ may_be_true (told self.now) globals.now l test }
    {
        match test {
            Expression::Any => true,
            Expression::Of(node) => self.value(node, globals, l) > 0,
        }
    }

    // Whether an expression may be false: `*` may, and so may what is 0.
    pub fn may_be_false(&self, test: Expression, globals: &[u8], l: u8) -> bool
        ensures { result ≡ may_be_false (told self.now) globals.now l test }
    {
        match test {
            Expression::Any => true,
            Expression::Of(node) => self.value(node, globals, l) == 0,
        }
    }
}

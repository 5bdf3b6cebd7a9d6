// Whether what one entry of the tables names is there.
ghost use Rattle.std.specs.Prelude.{◌≡◌, ◌&&◌, length, nat_lt};
ghost use Rattle.program.specs.Table.{table};
ghost use Rattle.program.specs.Limits.{has_variable, has_expression, linked, sound_node, sound_goal};

use crate::expression::Expression;
use crate::node::Node;
use crate::statement::Statement;
use crate::tables::Tables;
use crate::variable::Variable;

impl Tables {
    // This and `has_node` are one comparison each, of a table with numbers of its own type.
    pub(crate) fn has_place(&self, place: u8) -> bool
        ensures { result ≡ nat_lt place (length (table self.now).places) }
    {
        usize::from(place) < self.places.len()
    }

    fn has_node(&self, node: u16) -> bool
        ensures { result ≡ nat_lt node (length (table self.now).nodes) }
    {
        usize::from(node) < self.nodes.len()
    }

    pub(crate) fn is_value(&self, v: u8) -> bool
        ensures { result ≡ nat_lt v (table self.now).values }
    {
        v < self.values
    }

    fn has_variable(&self, variable: Variable) -> bool
        ensures { result ≡ has_variable (table self.now) variable }
    {
        match variable {
            Variable::Global(g) => g < self.globals,
            Variable::Local => true,
        }
    }

    fn has_expression(&self, expression: Expression) -> bool
        ensures { result ≡ has_expression (table self.now) expression }
    {
        match expression {
            Expression::Any => true,
            Expression::Of(node) => self.has_node(node),
        }
    }

    // Whether the links of a statement, its variable, expression, procedure and level are there.
    pub(crate) fn linked(&self, statement: Statement) -> bool
        ensures { result ≡ linked (table self.now) statement }
    {
        match statement {
            Statement::Skip { next } | Statement::Yield { next } | Statement::Zield { next } => {
                self.has_place(next)
            }
            Statement::Assume { test, next } => self.has_expression(test) && self.has_place(next),
            Statement::If {
                test,
                first,
                second,
            } => self.has_expression(test) && self.has_place(first) && self.has_place(second),
            Statement::Assign {
                variable,
                value,
                next,
            } => self.has_variable(variable) && self.has_expression(value) && self.has_place(next),
            Statement::While { test, body, next } => {
                self.has_expression(test) && self.has_place(body) && self.has_place(next)
            }
            Statement::Call {
                variable,
                procedure,
                argument,
                next,
            } => self.has_variable(variable) && self.has_call(procedure, argument, next),
            Statement::Return { value } => self.has_expression(value),
            Statement::Post {
                level,
                procedure,
                argument,
                next,
            } => level < self.levels && self.has_call(procedure, argument, next),
        }
    }

    // What a call and a post have in common: the procedure, its argument, and the place that follows.
    fn has_call(&self, procedure: u8, argument: Expression, next: u8) -> bool
        ensures { result ≡ (nat_lt procedure (length (table self.now).procedures) && (has_expression (table self.now) argument && nat_lt next (length (table self.now).places))) }
    {
        usize::from(procedure) < self.procedures.len()
            && self.has_expression(argument)
            && self.has_place(next)
    }

    // Whether a number is a value, and the variable or the parts of a node are there.
    pub(crate) fn sound_node(&self, node: Node) -> bool
        ensures { result ≡ sound_node (table self.now) node }
    {
        match node {
            Node::Number(v) => self.is_value(v),
            Node::Read(variable) => self.has_variable(variable),
            Node::Not(part) => self.has_node(part),
            Node::Join(_, left, right) => self.has_node(left) && self.has_node(right),
        }
    }

    // Whether what a goal asks of a global, if anything, is a value.
    pub(crate) fn sound_goal(&self, goal: Option<u8>) -> bool
        ensures { result ≡ sound_goal (table self.now) goal }
    {
        goal.is_none_or(|v| self.is_value(v))
    }
}

ghost use Rattle.std.specs.Prelude.{◌≡◌, ◌<◌, MatchResult};
ghost use Rattle.program.specs.Programs.{told};
ghost use Rattle.known.specs.Known.{bumps_table, BumpsFault};

use crate::error::KnownError;
use crate::parts::Parts;
use program::expression::Expression;
use program::node::Node;
use program::operator::Operator;
use program::program::Program;
use program::statement::Statement;
use program::variable::Variable;
use std::alloc::Global;

const NODES: [Node; 6] = [
    Node::Number(0),
    Node::Number(1),
    Node::Number(3),
    Node::Read(Variable::Global(0)),
    // g0 + 1
    Node::Join(Operator::Plus, 3, 1),
    // g0 = 1
    Node::Join(Operator::Equal, 3, 1),
];

const PLACES: [Statement; 7] = [
    Statement::Assign {
        variable: Variable::Global(0),
        value: Expression::Of(4),
        next: 1,
    },
    Statement::Return {
        value: Expression::Of(0),
    },
    Statement::Post {
        level: 1,
        procedure: 0,
        argument: Expression::Of(0),
        next: 3,
    },
    Statement::Post {
        level: 0,
        procedure: 0,
        argument: Expression::Of(0),
        next: 4,
    },
    Statement::Assume {
        test: Expression::Of(5),
        next: 5,
    },
    Statement::Assign {
        variable: Variable::Global(0),
        value: Expression::Of(2),
        next: 6,
    },
    Statement::Return {
        value: Expression::Of(0),
    },
];

// Two tasks that add 1, one posted above main and one at its level:
//
//     values 4 globals 1 buffers 1 levels 2
//     proc bump { g0 := g0 + 1 ; }
//     main 0 { post 1 bump 0 ; post 0 bump 0 ; assume g0 = 1 ; g0 := 3 ; }
//     from 0, to the given goal
pub fn bumps(heap: Global, goal: u8) -> Result<Program, KnownError>
    ensures { MatchResult result (λ p. (told p ≡ bumps_table goal) × (goal < 4)) (BumpsFault goal) }
{
    let parts = Parts {
        values: 4,
        globals: 1,
        buffers: 1,
        levels: 2,
        nodes: &NODES,
        places: &PLACES,
        procedures: &[0],
        mains: &[2],
        start: &[0],
        goal: &[Some(goal)],
    };
    parts.program(heap)
}

ghost use Rattle.std.specs.Prelude.{◌≡◌, MatchResult};
ghost use Rattle.program.specs.Programs.{told};
ghost use Rattle.known.specs.declared.error.KnownError.TheVariants.{Memory};
ghost use Rattle.known.specs.Known.{puts_table};

use crate::error::KnownError;
use crate::parts::Parts;
use program::expression::Expression;
use program::node::Node;
use program::program::Program;
use program::statement::Statement;
use program::variable::Variable;
use std::alloc::Global;

const NODES: [Node; 4] = [
    Node::Number(0),
    Node::Number(1),
    Node::Number(2),
    Node::Read(Variable::Local),
];

const PLACES: [Statement; 5] = [
    Statement::Assign {
        variable: Variable::Global(0),
        value: Expression::Of(3),
        next: 1,
    },
    Statement::Return {
        value: Expression::Of(0),
    },
    Statement::Post {
        level: 0,
        procedure: 0,
        argument: Expression::Of(1),
        next: 3,
    },
    Statement::Post {
        level: 0,
        procedure: 0,
        argument: Expression::Of(2),
        next: 4,
    },
    Statement::Return {
        value: Expression::Of(0),
    },
];

// Two tasks that put their value, in either order:
//
//     values 4 globals 1 buffers 1 levels 1
//     proc put { g0 := l ; }
//     main 0 { post 0 put 1 ; post 0 put 2 ; }
//     from 0 goal 2
pub fn puts(heap: Global) -> Result<Program, KnownError>
    ensures { MatchResult result (λ p. told p ≡ puts_table) (λ e. e ≡ Memory) }
{
    let parts = Parts {
        values: 4,
        globals: 1,
        buffers: 1,
        levels: 1,
        nodes: &NODES,
        places: &PLACES,
        procedures: &[0],
        mains: &[2],
        start: &[0],
        goal: &[Some(2)],
    };
    parts.program(heap)
}

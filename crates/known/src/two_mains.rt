ghost use Rattle.std.specs.Prelude.{◌≡◌, MatchResult};
ghost use Rattle.program.specs.Programs.{told};
ghost use Rattle.known.specs.declared.error.KnownError.TheVariants.{Memory};
ghost use Rattle.known.specs.Known.{two_mains_table};

use crate::error::KnownError;
use crate::parts::Parts;
use program::expression::Expression;
use program::node::Node;
use program::program::Program;
use program::statement::Statement;
use program::variable::Variable;
use std::alloc::Global;

const NODES: [Node; 2] = [Node::Number(0), Node::Number(1)];

const PLACES: [Statement; 3] = [
    Statement::Return {
        value: Expression::Of(0),
    },
    Statement::Assign {
        variable: Variable::Global(0),
        value: Expression::Of(1),
        next: 2,
    },
    Statement::Return {
        value: Expression::Of(0),
    },
];

// Two buffers, and nothing that makes the second one active:
//
//     values 2 globals 1 buffers 2 levels 1
//     main 0 { }
//     main 1 { g0 := 1 ; }
//     from 0 goal 1
pub fn two_mains(heap: Global) -> Result<Program, KnownError>
    ensures { MatchResult result (λ p. told p ≡ two_mains_table) (λ e. e ≡ Memory) }
{
    let parts = Parts {
        values: 2,
        globals: 1,
        buffers: 2,
        levels: 1,
        nodes: &NODES,
        places: &PLACES,
        procedures: &[],
        mains: &[0, 1],
        start: &[0],
        goal: &[Some(1)],
    };
    parts.program(heap)
}

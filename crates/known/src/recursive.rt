ghost use Rattle.std.specs.Prelude.{◌≡◌, MatchResult};
ghost use Rattle.program.specs.Programs.{told};
ghost use Rattle.known.specs.declared.error.KnownError.TheVariants.{Memory};
ghost use Rattle.known.specs.Known.{recursive_table};

use crate::error::KnownError;
use crate::parts::Parts;
use program::expression::Expression;
use program::node::Node;
use program::program::Program;
use program::statement::Statement;
use program::variable::Variable;
use std::alloc::Global;

const NODES: [Node; 1] = [Node::Number(0)];

const PLACES: [Statement; 4] = [
    Statement::Call {
        variable: Variable::Global(0),
        procedure: 0,
        argument: Expression::Of(0),
        next: 1,
    },
    Statement::Return {
        value: Expression::Of(0),
    },
    Statement::Call {
        variable: Variable::Global(0),
        procedure: 0,
        argument: Expression::Of(0),
        next: 3,
    },
    Statement::Return {
        value: Expression::Of(0),
    },
];

// A procedure that calls itself without end, so that the stack fills up:
//
//     values 2 globals 1 buffers 1 levels 1
//     proc r { call g0 := r 0 ; }
//     main 0 { call g0 := r 0 ; }
//     from 0 goal 1
pub fn recursive(heap: Global) -> Result<Program, KnownError>
    ensures { MatchResult result (λ p. told p ≡ recursive_table) (λ e. e ≡ Memory) }
{
    let parts = Parts {
        values: 2,
        globals: 1,
        buffers: 1,
        levels: 1,
        nodes: &NODES,
        places: &PLACES,
        procedures: &[0],
        mains: &[2],
        start: &[0],
        goal: &[Some(1)],
    };
    parts.program(heap)
}

ghost use Rattle.std.specs.Prelude.{◌≡◌, MatchResult};
ghost use Rattle.program.specs.Programs.{told};
ghost use Rattle.known.specs.declared.error.KnownError.TheVariants.{Memory};
ghost use Rattle.known.specs.Known.{sampler_table};

use crate::error::KnownError;
use crate::parts::Parts;
use program::expression::Expression;
use program::node::Node;
use program::operator::Operator;
use program::program::Program;
use program::statement::Statement;
use program::variable::Variable;
use std::alloc::Global;

const NODES: [Node; 7] = [
    Node::Number(0),
    Node::Number(1),
    Node::Read(Variable::Global(0)),
    Node::Read(Variable::Local),
    // l = 1
    Node::Join(Operator::Equal, 3, 1),
    // g0 - 1
    Node::Join(Operator::Minus, 2, 1),
    // l < g0
    Node::Join(Operator::Less, 3, 2),
];

const PLACES: [Statement; 19] = [
    // 0 to 14: the procedure
    Statement::Skip { next: 1 },
    Statement::Assume {
        test: Expression::Of(4),
        next: 2,
    },
    Statement::If {
        test: Expression::Any,
        first: 3,
        second: 4,
    },
    Statement::Assign {
        variable: Variable::Global(0),
        value: Expression::Any,
        next: 5,
    },
    Statement::Yield { next: 5 },
    Statement::While {
        test: Expression::Any,
        body: 6,
        next: 7,
    },
    Statement::Call {
        variable: Variable::Local,
        procedure: 0,
        argument: Expression::Of(2),
        next: 5,
    },
    Statement::Zield { next: 8 },
    Statement::Post {
        level: 1,
        procedure: 0,
        argument: Expression::Any,
        next: 9,
    },
    Statement::If {
        test: Expression::Of(2),
        first: 10,
        second: 11,
    },
    Statement::Call {
        variable: Variable::Global(0),
        procedure: 0,
        argument: Expression::Any,
        next: 12,
    },
    Statement::Assign {
        variable: Variable::Local,
        value: Expression::Of(5),
        next: 12,
    },
    Statement::While {
        test: Expression::Of(6),
        body: 13,
        next: 14,
    },
    Statement::Skip { next: 12 },
    Statement::Return {
        value: Expression::Any,
    },
    // 15: the return that ends it
    Statement::Return {
        value: Expression::Of(0),
    },
    // 16: main 0
    Statement::Post {
        level: 0,
        procedure: 0,
        argument: Expression::Of(1),
        next: 17,
    },
    Statement::Return {
        value: Expression::Of(0),
    },
    // 18: main 1
    Statement::Return {
        value: Expression::Of(0),
    },
];

// A procedure that has every statement, with `*` and without:
//
//     values 3 globals 1 buffers 2 levels 2
//     proc p {
//       skip ; assume l = 1 ;
//       if * { g0 := * ; } else { yield ; }
//       while * { call l := p g0 ; }
//       zield ; post 1 p * ;
//       if g0 { call g0 := p * ; } else { l := g0 - 1 ; }
//       while l < g0 { skip ; }
//       return * ;
//     }
//     main 0 { post 0 p 1 ; }
//     main 1 { }
//     from 0 goal 2
pub fn sampler(heap: Global) -> Result<Program, KnownError>
    ensures { MatchResult result (λ p. told p ≡ sampler_table) (λ e. e ≡ Memory) }
{
    let parts = Parts {
        values: 3,
        globals: 1,
        buffers: 2,
        levels: 2,
        nodes: &NODES,
        places: &PLACES,
        procedures: &[0],
        mains: &[16, 18],
        start: &[0],
        goal: &[Some(2)],
    };
    parts.program(heap)
}

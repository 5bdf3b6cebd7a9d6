// What keeps tables from being a program. Tables never hold more places, nodes or procedures than a program may have, so
// that what is too much of them finds no room.
use crate::told_flaws::{END, SOUND, fault};
use known::parts::Parts;
use program::expression::Expression;
use program::node::Node;
use program::statement::Statement;
use program::variable::Variable;
use std::alloc::Global;

// The same for one place with that statement.
fn place_fault(heap: Global, statement: Statement) -> (&'static str, u16) {
    fault(
        heap,
        Parts {
            places: &[END, statement],
            ..SOUND
        },
    )
}

// The same for one node more.
fn node_fault(heap: Global, node: Node) -> (&'static str, u16) {
    fault(
        heap,
        Parts {
            nodes: &[Node::Number(0), node],
            ..SOUND
        },
    )
}

#[test]
fn sizes(rt: HostRuntime) {
    let heap = rt.alloc();
    assert_eq!(rt; fault(heap, SOUND), ("none", 0));
    assert_eq!(rt;
        fault(
            heap,
            Parts {
                values: 16,
                levels: 4,
                ..SOUND
            },
        ),
        ("none", 0)
    );
    assert_eq!(rt; fault(heap, Parts { values: 1, ..SOUND }), ("values", 0));
    assert_eq!(rt;
        fault(
            heap,
            Parts {
                values: 17,
                ..SOUND
            },
        ),
        ("values", 0)
    );
    assert_eq!(rt;
        fault(
            heap,
            Parts {
                globals: 0,
                ..SOUND
            },
        ),
        ("globals", 0)
    );
    assert_eq!(rt;
        fault(
            heap,
            Parts {
                globals: 9,
                ..SOUND
            },
        ),
        ("globals", 0)
    );
    assert_eq!(rt;
        fault(
            heap,
            Parts {
                buffers: 0,
                ..SOUND
            },
        ),
        ("buffers", 0)
    );
    assert_eq!(rt;
        fault(
            heap,
            Parts {
                buffers: 4,
                ..SOUND
            },
        ),
        ("buffers", 0)
    );
    assert_eq!(rt; fault(heap, Parts { levels: 0, ..SOUND }), ("levels", 0));
    assert_eq!(rt; fault(heap, Parts { levels: 5, ..SOUND }), ("levels", 0));
}

// One main for each buffer, one start value and one goal entry for each global; no more than there is room for.
#[test]
fn lengths(rt: HostRuntime) {
    let heap = rt.alloc();
    assert_eq!(rt;
        fault(
            heap,
            Parts {
                mains: &[],
                ..SOUND
            },
        ),
        ("mains", 0)
    );
    assert_eq!(rt;
        fault(
            heap,
            Parts {
                mains: &[0, 0],
                ..SOUND
            },
        ),
        ("mains", 0)
    );
    assert_eq!(rt;
        fault(
            heap,
            Parts {
                start: &[],
                ..SOUND
            },
        ),
        ("start", 0)
    );
    assert_eq!(rt;
        fault(
            heap,
            Parts {
                goal: &[None, None],
                ..SOUND
            },
        ),
        ("goal", 0)
    );
    assert_eq!(rt;
        fault(
            heap,
            Parts {
                mains: &[0; 4],
                ..SOUND
            },
        ),
        ("room", 0)
    );
    assert_eq!(rt;
        fault(
            heap,
            Parts {
                procedures: &[0; 16],
                ..SOUND
            },
        ),
        ("none", 0)
    );
    assert_eq!(rt;
        fault(
            heap,
            Parts {
                procedures: &[0; 17],
                ..SOUND
            },
        ),
        ("room", 0)
    );
    assert_eq!(rt;
        fault(
            heap,
            Parts {
                start: &[0; 9],
                ..SOUND
            },
        ),
        ("room", 0)
    );
}

#[test]
fn list_entries(rt: HostRuntime) {
    let heap = rt.alloc();
    assert_eq!(rt;
        fault(
            heap,
            Parts {
                procedures: &[0, 1],
                ..SOUND
            },
        ),
        ("procedure", 1)
    );
    assert_eq!(rt;
        fault(
            heap,
            Parts {
                mains: &[1],
                ..SOUND
            },
        ),
        ("main", 0)
    );
    assert_eq!(rt;
        fault(
            heap,
            Parts {
                start: &[2],
                ..SOUND
            },
        ),
        ("start value", 0)
    );
    assert_eq!(rt;
        fault(
            heap,
            Parts {
                goal: &[Some(2)],
                ..SOUND
            },
        ),
        ("goal value", 0)
    );
    assert_eq!(rt;
        fault(
            heap,
            Parts {
                goal: &[Some(1)],
                ..SOUND
            },
        ),
        ("none", 0)
    );
}

// A place, an expression, a variable, a procedure and a level that are not there.
#[test]
fn places(rt: HostRuntime) {
    let heap = rt.alloc();
    let value = Expression::Of(0);
    let none = Expression::Of(1);
    let variable = Variable::Global(1);
    let post = Statement::Post {
        level: 1,
        procedure: 0,
        argument: value,
        next: 0,
    };
    let call = Statement::Call {
        variable: Variable::Local,
        procedure: 1,
        argument: value,
        next: 0,
    };
    assert_eq!(rt; place_fault(heap, Statement::Skip { next: 1 }), ("none", 0));
    assert_eq!(rt;
        place_fault(heap, Statement::Skip { next: 2 }),
        ("place", 1)
    );
    assert_eq!(rt;
        place_fault(heap, Statement::Return { value: none }),
        ("place", 1)
    );
    assert_eq!(rt;
        place_fault(
            heap,
            Statement::Assign {
                variable,
                value,
                next: 0,
            },
        ),
        ("place", 1)
    );
    assert_eq!(rt; place_fault(heap, call), ("place", 1));
    assert_eq!(rt; place_fault(heap, post), ("place", 1));
}

// A number that is no value, a variable and a part that are not there, and a node that is its own part.
#[test]
fn nodes(rt: HostRuntime) {
    let heap = rt.alloc();
    assert_eq!(rt; node_fault(heap, Node::Number(1)), ("none", 0));
    assert_eq!(rt; node_fault(heap, Node::Number(2)), ("node", 1));
    assert_eq!(rt;
        node_fault(heap, Node::Read(Variable::Global(1))),
        ("node", 1)
    );
    assert_eq!(rt; node_fault(heap, Node::Not(2)), ("node", 1));
    assert_eq!(rt; node_fault(heap, Node::Not(1)), ("depth", 1));
}

// A way down of eleven nodes.
const CHAIN: [Node; 11] = [
    Node::Number(0),
    Node::Not(0),
    Node::Not(1),
    Node::Not(2),
    Node::Not(3),
    Node::Not(4),
    Node::Not(5),
    Node::Not(6),
    Node::Not(7),
    Node::Not(8),
    Node::Not(9),
];

fn chain_fault(heap: Global, nodes: &[Node]) -> (&'static str, u16) {
    fault(heap, Parts { nodes, ..SOUND })
}

// Ten nodes are the longest way down; the eleventh, node 10, stands too high.
#[test]
fn depths(rt: HostRuntime) {
    assert_eq!(rt; chain_fault(rt.alloc(), &CHAIN[0..10]), ("none", 0));
    assert_eq!(rt; chain_fault(rt.alloc(), &CHAIN), ("depth", 10));
}

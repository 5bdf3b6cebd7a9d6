// Whose ticket it is, and one question after another.
use crate::counter::Counter;
use crate::desk::Call::*;
use crate::desk::Heard::*;
use crate::desk::{Act, Named, run, run_beside};
use crate::helpers::{ask, by_ones, told};
use explorer::verdict::Verdict;
use std::test::Fail;
use store::row_store::RowStore;

// Explorer 1 is shown the ticket of explorer 2.
#[test]
fn another_explorers_ticket(rt: HostRuntime) {
    let heard = run(
        by_ones(9),
        3,
        [
            Own(Act::Begin),
            Other(Act::Begin),
            Showing(Named::Own, Act::Advance(1)),
            Showing(Named::Own, Act::Verdict),
            Showing(Named::Own, Act::Trace(4)),
            Showing(Named::Own, Act::Settle),
            Showing(Named::Own, Act::Abandon),
        ],
    );
    assert_eq!(rt;
        heard,
        [
            Began,
            Began,
            Refused(24),
            Refused(24),
            Refused(24),
            Refused(24),
            Refused(24),
        ]
    );
}

// Both questions stay as they were, and the other's ticket is still with the other.
#[test]
fn a_refused_ticket_leaves_both_questions(rt: HostRuntime) {
    let heard = run(
        by_ones(9),
        3,
        [
            Own(Act::Begin),
            Other(Act::Begin),
            Own(Act::Advance(1)),
            Showing(Named::Own, Act::Abandon),
            Own(Act::Verdict),
            Other(Act::Verdict),
        ],
    );
    assert_eq!(rt;
        heard,
        [
            Began,
            Began,
            Advanced(1, Verdict::Open),
            Refused(24),
            Told(Verdict::Open, 0, 1, 2),
            Told(Verdict::Open, 0, 0, 1),
        ]
    );
}

// An explorer that has no ticket out takes none, not even one with its own number.
#[test]
fn no_ticket_out(rt: HostRuntime) {
    let heard = run_beside(
        1,
        by_ones(9),
        3,
        [
            Other(Act::Begin),
            Showing(Named::Own, Act::Advance(1)),
            Showing(Named::Own, Act::Verdict),
            Showing(Named::Own, Act::Trace(4)),
            Showing(Named::Own, Act::Settle),
            Showing(Named::Own, Act::Abandon),
        ],
    );
    assert_eq!(rt;
        heard,
        [
            Began,
            Refused(24),
            Refused(24),
            Refused(24),
            Refused(24),
            Refused(24),
        ]
    );
}

// Of two explorers with one number, each takes the other's ticket for its own: what it tells is its own question.
#[test]
fn equal_numbers(rt: HostRuntime) {
    let heard = run_beside(
        1,
        by_ones(9),
        3,
        [
            Own(Act::Begin),
            Other(Act::Begin),
            Showing(Named::Own, Act::Advance(1)),
            Showing(Named::Own, Act::Verdict),
            Other(Act::Verdict),
        ],
    );
    assert_eq!(rt;
        heard,
        [
            Began,
            Began,
            Advanced(1, Verdict::Open),
            Told(Verdict::Open, 0, 1, 2),
            Told(Verdict::Open, 0, 0, 1),
        ]
    );
}

// So each may end its question with the other's ticket.
#[test]
fn equal_numbers_at_the_end(rt: HostRuntime) {
    let heard = run_beside(
        1,
        by_ones(0),
        3,
        [
            Own(Act::Begin),
            Other(Act::Begin),
            Showing(Named::Own, Act::Settle),
            Own(Act::Begin),
            Showing(Named::Own, Act::Abandon),
            Other(Act::Settle),
        ],
    );
    assert_eq!(rt;
        heard,
        [
            Began,
            Began,
            Settled(Verdict::Reached, 0),
            Began,
            Abandoned,
            Settled(Verdict::Reached, 0),
        ]
    );
}

// After settle the explorer begins again from nothing: the start line alone.
#[test]
fn settle_and_begin_again(rt: HostRuntime) {
    let heard = run(
        by_ones(2),
        3,
        [
            Own(Act::Begin),
            Own(Act::Advance(9)),
            Own(Act::Settle),
            Own(Act::Begin),
            Own(Act::Verdict),
            Own(Act::Advance(9)),
        ],
    );
    assert_eq!(rt;
        heard,
        [
            Began,
            Advanced(2, Verdict::Reached),
            Settled(Verdict::Reached, 2),
            Began,
            Told(Verdict::Open, 0, 0, 1),
            Advanced(2, Verdict::Reached),
        ]
    );
}

// The next question may be about another machine: 0 and 1 are all that this one has.
#[test]
fn another_machine_after_settle(rt: HostRuntime) -> Result<(), Fail> {
    let mut bytes = [0u8; 15];
    let mut store = RowStore::new(1, &mut bytes);
    let mut asker = ask(&by_ones(0), &mut store)?;
    asker.settle(None, &by_ones(0), &store)?;
    let machine = Counter::new(1, 9, 1, false);
    asker.begin(&machine, &mut store)?;
    asker.advance(None, &machine, &mut store, 9)?;
    let report = told(asker.verdict(None, &machine, &store)?);
    assert_eq!(rt; report, (Verdict::None, 0, 2, 2));
    Ok(())
}

// abandon leaves the store as it was, and the next begin clears it.
#[test]
fn abandon_and_begin_again(rt: HostRuntime) {
    let heard = run(
        by_ones(9),
        3,
        [
            Own(Act::Begin),
            Own(Act::Advance(2)),
            Own(Act::Abandon),
            Size,
            Own(Act::Begin),
            Own(Act::Verdict),
            Size,
        ],
    );
    assert_eq!(rt;
        heard,
        [
            Began,
            Advanced(2, Verdict::Open),
            Abandoned,
            Holds(3),
            Began,
            Told(Verdict::Open, 0, 0, 1),
            Holds(1),
        ]
    );
}

// The numbers of all refusals; which call but begin refuses with which, and which leads where two would do.
use crate::desk::Call::*;
use crate::desk::Heard::*;
use crate::desk::{Act, Named, run};
use crate::helpers::by_ones;
use explorer::refusal::Refusal;
use explorer::verdict::Verdict;

// The numbers of all refusals.
#[test]
fn numbers(rt: HostRuntime) {
    let told = [
        Refusal::TicketOut.number(),
        Refusal::TooWide.number(),
        Refusal::OtherWidth.number(),
        Refusal::NoCapacity.number(),
        Refusal::NoTicket.number(),
        Refusal::OtherSize.number(),
        Refusal::NoTrace.number(),
        Refusal::ShortArea.number(),
        Refusal::StillOpen.number(),
    ];
    assert_eq!(rt; told, [20, 21, 22, 23, 24, 25, 26, 27, 28]);
}

// The machine that is too wide does not have the store's width either: 21 leads over 22.
#[test]
fn advance_on_another_machine_or_store(rt: HostRuntime) {
    let heard = run(
        by_ones(9),
        3,
        [
            Own(Act::Begin),
            On(Named::TooWide, Act::Advance(1)),
            On(Named::Wider, Act::Advance(1)),
            On(Named::OtherStore, Act::Advance(1)),
        ],
    );
    assert_eq!(rt; heard, [Began, Refused(21), Refused(22), Refused(22)]);
}

#[test]
fn trace_on_another_machine_or_store(rt: HostRuntime) {
    let heard = run(
        by_ones(9),
        3,
        [
            Own(Act::Begin),
            On(Named::TooWide, Act::Trace(0)),
            On(Named::Wider, Act::Trace(0)),
            On(Named::OtherStore, Act::Trace(0)),
        ],
    );
    assert_eq!(rt; heard, [Began, Refused(21), Refused(22), Refused(22)]);
}

// The store has an entry too many: 21 and 22 lead over 25.
#[test]
fn advance_where_the_size_differs_too(rt: HostRuntime) {
    let heard = run(
        by_ones(9),
        3,
        [
            Own(Act::Begin),
            Add(7),
            On(Named::TooWide, Act::Advance(1)),
            On(Named::Wider, Act::Advance(1)),
            Own(Act::Advance(1)),
        ],
    );
    assert_eq!(rt; heard, [Began, Done, Refused(21), Refused(22), Refused(25)]);
}

// Nothing was reached either: 25 leads over 26.
#[test]
fn trace_where_the_size_differs_too(rt: HostRuntime) {
    let heard = run(
        by_ones(9),
        3,
        [
            Own(Act::Begin),
            Add(7),
            On(Named::TooWide, Act::Trace(0)),
            On(Named::Wider, Act::Trace(0)),
            Own(Act::Trace(0)),
        ],
    );
    assert_eq!(rt; heard, [Began, Done, Refused(21), Refused(22), Refused(25)]);
}

// The verdict is open as well: 25 leads over 28, which is told once the store is as it was.
#[test]
fn settle_where_the_size_differs_too(rt: HostRuntime) {
    let heard = run(
        by_ones(9),
        3,
        [
            Own(Act::Begin),
            Add(7),
            Own(Act::Settle),
            Clear,
            Add(0),
            Own(Act::Settle),
        ],
    );
    assert_eq!(rt; heard, [Began, Done, Refused(25), Done, Done, Refused(28)]);
}

// 24 leads over 21 and 22 (too wide), over 25 (an entry too many) and over 26 and 28 (the verdict is open).
#[test]
fn another_ticket_leads_over_all_else(rt: HostRuntime) {
    let heard = run(
        by_ones(9),
        3,
        [
            Own(Act::Begin),
            Other(Act::Begin),
            Add(7),
            Showing(Named::TooWide, Act::Advance(1)),
            Showing(Named::TooWide, Act::Trace(0)),
            Showing(Named::TooWide, Act::Settle),
        ],
    );
    assert_eq!(rt;
        heard,
        [Began, Began, Done, Refused(24), Refused(24), Refused(24)]
    );
}

// A trace shows how the goal was reached: there is none while the verdict is open, or where it is another.
#[test]
fn trace_where_nothing_was_reached(rt: HostRuntime) {
    let heard = run(
        by_ones(9),
        2,
        [
            Own(Act::Begin),
            Own(Act::Trace(4)),
            Own(Act::Advance(9)),
            Own(Act::Trace(4)),
        ],
    );
    assert_eq!(rt;
        heard,
        [Began, Refused(26), Advanced(2, Verdict::Full), Refused(26)]
    );
}

// Where 2 is reached at depth 2, an area of one byte is too short, and one of two bytes is not.
#[test]
fn trace_into_a_short_area(rt: HostRuntime) {
    let heard = run(
        by_ones(2),
        3,
        [
            Own(Act::Begin),
            Own(Act::Advance(9)),
            Own(Act::Trace(1)),
            Own(Act::Trace(2)),
        ],
    );
    assert_eq!(rt;
        heard,
        [Began, Advanced(2, Verdict::Reached), Refused(27), Traced(2)]
    );
}

// The ticket comes back: the question goes on, and is settled when it is closed.
#[test]
fn settle_while_open(rt: HostRuntime) {
    let heard = run(
        by_ones(2),
        3,
        [
            Own(Act::Begin),
            Own(Act::Settle),
            Own(Act::Advance(9)),
            Own(Act::Settle),
        ],
    );
    assert_eq!(rt;
        heard,
        [
            Began,
            Refused(28),
            Advanced(2, Verdict::Reached),
            Settled(Verdict::Reached, 2),
        ]
    );
}

// Of machine and store, verdict and abandon look at neither.
#[test]
fn calls_that_look_at_neither(rt: HostRuntime) {
    let heard = run(
        by_ones(9),
        3,
        [
            Own(Act::Begin),
            On(Named::TooWide, Act::Verdict),
            On(Named::OtherStore, Act::Verdict),
            On(Named::TooWide, Act::Abandon),
            Own(Act::Begin),
            On(Named::OtherStore, Act::Abandon),
        ],
    );
    let open = Told(Verdict::Open, 0, 0, 1);
    assert_eq!(rt; heard, [Began, open, open, Abandoned, Began, Abandoned]);
}

// settle looks at the store's size, and at nothing else of store and machine.
#[test]
fn settle_looks_at_the_size(rt: HostRuntime) {
    let heard = run(
        by_ones(0),
        3,
        [
            Own(Act::Begin),
            On(Named::OtherStore, Act::Settle),
            On(Named::TooWide, Act::Settle),
        ],
    );
    assert_eq!(rt; heard, [Began, Refused(25), Settled(Verdict::Reached, 0)]);
}

// What begin is refused with, which number leads where two would do, and what a refused begin leaves.
use crate::asker::Asker;
use crate::desk::Call::*;
use crate::desk::Heard::*;
use crate::desk::{Act, Named, run};
use crate::helpers::{by_ones, refused};
use crate::too_wide::TooWide;
use explorer::verdict::Verdict;
use store::row_store::RowStore;

// 20 leads over 21 (too wide), 22 (a machine or a store of another width) and 23 (a store with no room).
#[test]
fn begin_while_its_ticket_is_out(rt: HostRuntime) {
    let heard = run(
        by_ones(9),
        3,
        [
            Own(Act::Begin),
            Own(Act::Begin),
            On(Named::TooWide, Act::Begin),
            On(Named::Wider, Act::Begin),
            On(Named::OtherStore, Act::Begin),
            On(Named::NoRoom, Act::Begin),
        ],
    );
    assert_eq!(rt;
        heard,
        [
            Began,
            Refused(20),
            Refused(20),
            Refused(20),
            Refused(20),
            Refused(20),
        ]
    );
}

// The question that is under way stays as it was: entries 0, 1 and 2, two of them expanded.
#[test]
fn a_refused_begin_leaves_the_question(rt: HostRuntime) {
    let heard = run(
        by_ones(9),
        3,
        [
            Own(Act::Begin),
            Own(Act::Advance(2)),
            Own(Act::Begin),
            Own(Act::Verdict),
            Size,
        ],
    );
    assert_eq!(rt;
        heard,
        [
            Began,
            Advanced(2, Verdict::Open),
            Refused(20),
            Told(Verdict::Open, 0, 2, 3),
            Holds(3),
        ]
    );
}

// 21 leads over 22: the store's width is 1.
#[test]
fn begin_with_a_machine_that_is_too_wide(rt: HostRuntime) {
    assert_eq!(rt;
        run(by_ones(9), 3, [On(Named::TooWide, Act::Begin)]),
        [Refused(21)]
    );
}

// 21 leads over 23 too: a store of a width that no line has, which is the machine's own, has no room.
#[test]
fn too_wide_for_any_store(rt: HostRuntime) {
    let mut asker = Asker::new(1);
    assert_eq!(rt;
        refused(asker.begin(&TooWide, &mut RowStore::new(257, &mut [0u8; 5]))),
        21
    );
}

// The machine is wider than the store, or the store than the machine. 22 leads over 23: the other store has no room.
#[test]
fn begin_with_another_width(rt: HostRuntime) {
    let heard = run(
        by_ones(9),
        3,
        [
            On(Named::Wider, Act::Begin),
            On(Named::OtherStore, Act::Begin),
        ],
    );
    assert_eq!(rt; heard, [Refused(22), Refused(22)]);
}

#[test]
fn begin_with_no_room(rt: HostRuntime) {
    assert_eq!(rt;
        run(by_ones(9), 3, [On(Named::NoRoom, Act::Begin)]),
        [Refused(23)]
    );
}

// A row takes 5 bytes, so that 4 have room for none.
#[test]
fn begin_with_too_few_bytes(rt: HostRuntime) {
    let mut asker = Asker::new(1);
    assert_eq!(rt;
        refused(asker.begin(&by_ones(9), &mut RowStore::new(1, &mut [0u8; 4]))),
        23
    );
}

// Only an accepted begin clears the store, and only it hands a ticket out, so that the next begin is accepted.
#[test]
fn a_refused_begin_leaves_store_and_explorer(rt: HostRuntime) {
    let heard = run(
        by_ones(9),
        3,
        [
            Add(7),
            Add(8),
            On(Named::TooWide, Act::Begin),
            Size,
            Own(Act::Begin),
            Size,
        ],
    );
    assert_eq!(rt; heard, [Done, Done, Refused(21), Holds(2), Began, Holds(1)]);
}

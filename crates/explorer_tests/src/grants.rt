// How many expansions are granted, in how many parts, and what is left to grant after the end.
use crate::counter::Counter;
use crate::desk::Call::*;
use crate::desk::Heard::*;
use crate::desk::{Act, run};
use crate::helpers::{ask, ask_in, ask_once, by_ones};
use explorer::refusal::Refusal;
use explorer::verdict::Verdict;
use std::test::Fail;
use store::row_store::RowStore;

#[test]
fn grant_0(rt: HostRuntime) {
    assert_eq!(rt;
        ask_once(by_ones(9), 3, 0),
        Ok(((0, Verdict::Open), (Verdict::Open, 0, 0, 1)))
    );
}

// Entry 0 is expanded, which adds entry 1.
#[test]
fn grant_1(rt: HostRuntime) {
    assert_eq!(rt;
        ask_once(by_ones(9), 3, 1),
        Ok(((1, Verdict::Open), (Verdict::Open, 0, 1, 2)))
    );
}

// Of the largest grant as much is used as there is to expand: 0, 1, 2 and 3.
#[test]
fn grant_65535(rt: HostRuntime) {
    let answer = ask_once(Counter::new(3, 9, 1, true), 5, 65_535);
    assert_eq!(rt; answer, Ok(((4, Verdict::Cut), (Verdict::Cut, 0, 4, 4))));
}

// Four grants of 1 make what one grant of 4 makes. Steps add 1 or 2: 0 gives 1 and 2, 1 gives 3, 2 gives 4, and 3
// gives 5.
#[test]
fn pauses_change_nothing(rt: HostRuntime) {
    let heard = run(
        Counter::new(9, 9, 2, true),
        6,
        [
            Own(Act::Begin),
            Own(Act::Advance(1)),
            Own(Act::Advance(1)),
            Own(Act::Advance(1)),
            Own(Act::Advance(1)),
            Own(Act::Verdict),
        ],
    );
    let one = Advanced(1, Verdict::Open);
    assert_eq!(rt;
        heard,
        [Began, one, one, one, one, Told(Verdict::Open, 0, 4, 6)]
    );
}

#[test]
fn without_a_pause(rt: HostRuntime) {
    let answer = ask_once(Counter::new(9, 9, 2, true), 6, 4);
    assert_eq!(rt; answer, Ok(((4, Verdict::Open), (Verdict::Open, 0, 4, 6))));
}

// To the last byte of the store: entry p holds p, and its note, the least byte first, is 256 times the place that it
// was met from, and the number of the step.
#[test]
fn the_same_bytes(rt: HostRuntime) -> Result<(), Fail> {
    let machine = Counter::new(9, 9, 2, true);
    let mut paused = [9u8; 30];
    let mut store = RowStore::new(1, &mut paused);
    let mut asker = ask(&machine, &mut store)?;
    asker.advance(None, &machine, &mut store, 1)?;
    asker.advance(None, &machine, &mut store, 3)?;
    let mut at_once = [9u8; 30];
    ask_in(machine, &mut at_once, 4)?;
    assert_eq!(rt; paused, at_once);
    assert_eq!(rt;
        paused,
        [
            0, 0, 0, 0, 0, 1, 0, 0, 0, 0, 2, 1, 0, 0, 0, 3, 1, 1, 0, 0, 4, 1, 2, 0, 0, 5, 1, 3, 0,
            0,
        ]
    );
    Ok(())
}

// What a second advance tells, after the first has closed the question, in a store of three rows.
fn after_the_end(machine: Counter) -> Result<(u16, Verdict), Refusal> {
    let mut bytes = [0u8; 15];
    let mut store = RowStore::new(1, &mut bytes);
    let mut asker = ask(&machine, &mut store)?;
    asker.advance(None, &machine, &mut store, 100)?;
    asker.advance(None, &machine, &mut store, 100)
}

// Once the verdict is no longer open, an advance is accepted, makes no expansion and tells the verdict.
#[test]
fn after_reached(rt: HostRuntime) {
    assert_eq!(rt; after_the_end(by_ones(2)), Ok((0, Verdict::Reached)));
}

#[test]
fn after_reached_at_the_start(rt: HostRuntime) {
    assert_eq!(rt; after_the_end(by_ones(0)), Ok((0, Verdict::Reached)));
}

#[test]
fn after_none(rt: HostRuntime) {
    assert_eq!(rt;
        after_the_end(Counter::new(1, 9, 1, false)),
        Ok((0, Verdict::None))
    );
}

#[test]
fn after_cut(rt: HostRuntime) {
    assert_eq!(rt;
        after_the_end(Counter::new(1, 9, 1, true)),
        Ok((0, Verdict::Cut))
    );
}

#[test]
fn after_full(rt: HostRuntime) {
    assert_eq!(rt; after_the_end(by_ones(9)), Ok((0, Verdict::Full)));
}

// One row holds the start line. It is enough where that is a goal.
#[test]
fn capacity_1_reached(rt: HostRuntime) {
    assert_eq!(rt;
        ask_once(by_ones(0), 1, 9),
        Ok(((0, Verdict::Reached), (Verdict::Reached, 0, 0, 1)))
    );
}

// It is enough where the start line has no step.
#[test]
fn capacity_1_none(rt: HostRuntime) {
    let answer = ask_once(Counter::new(9, 9, 0, true), 1, 9);
    assert_eq!(rt; answer, Ok(((1, Verdict::None), (Verdict::None, 0, 1, 1))));
}

// Else the next line has no row.
#[test]
fn capacity_1_full(rt: HostRuntime) {
    assert_eq!(rt;
        ask_once(by_ones(9), 1, 9),
        Ok(((1, Verdict::Full), (Verdict::Full, 0, 1, 1)))
    );
}
